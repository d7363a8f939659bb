//! Why the rule replies to a tap as it does.

ghost use Rattle.account_rule.specs.{Reasons.replied_by, Windows.charged_by, Windows.paid_by};
ghost use Rattle.std.specs.Prelude.{◌≡◌};

use crate::reply::{Answer, Reply};
use tariffs::Mode;

/// Why the rule replies to a tap as it does. The reply follows from it.
#[derive(Clone, Copy, Debug, PartialEq, Eq)]
pub enum Reason {
    /// The table does not know the tap's validator.
    Unknown,
    /// A known tap before it is not earlier: the latest of these is at `latest`.
    Stale {
        latest: u64,
    },
    /// The ride at this moment, on this mode, gives it: it is the last ride before it.
    Transfer {
        moment: u64,
        mode: Mode,
    },
    /// It is a ride of the window that its first ride opened at `start` and that ends at `until`.
    Ride {
        start: u64,
        until: u64,
        charge: Charge,
    },
}

/// What decides the cents of a ride. `position` is the number of rides before it in its window.
#[derive(Clone, Copy, Debug, PartialEq, Eq)]
pub enum Charge {
    /// The ceiling leaves a whole fare.
    Full { position: u32, cents: u32 },
    /// The ceiling leaves less than a fare, `cents`, and that is charged.
    CeilingCut { position: u32, cents: u32 },
    /// The rides before it have cost the ceiling or more.
    CeilingReached { position: u32 },
    /// The window has had all rides that may be charged.
    RideLimitReached,
}

impl Charge {
    /// What the ride costs, in cents.
    pub fn cents(self) -> u32
        ensures { result ≡ charged_by self }
    {
        match self {
            Charge::Full { position: _, cents } => cents,
            Charge::CeilingCut { position: _, cents } => cents,
            Charge::CeilingReached { position: _ } => 0,
            Charge::RideLimitReached => 0,
        }
    }

    /// What is paid for the ride, in cents, or `None` if a limit is reached.
    pub fn paid(self) -> Option<u32>
        ensures { result ≡ paid_by self }
    {
        match self {
            Charge::Full { position: _, cents } => Some(cents),
            Charge::CeilingCut { position: _, cents } => Some(cents),
            Charge::CeilingReached { position: _ } => None,
            Charge::RideLimitReached => None,
        }
    }
}

impl Reason {
    /// The reply to a tap with this reason.
    #[tactic(auto, unfolding(crate::specs::Replies::reply_with))]
    pub fn reply(self) -> Reply
        ensures { result ≡ replied_by self }
    {
        match self {
            Reason::Unknown => Reply::free(Answer::Unknown),
            Reason::Stale { latest: _ } => Reply::free(Answer::Stale),
            Reason::Transfer { moment: _, mode: _ } => Reply::free(Answer::Transfer),
            Reason::Ride {
                start: _,
                until: _,
                charge,
            } => Reply::to_ride(charge.paid()),
        }
    }
}
