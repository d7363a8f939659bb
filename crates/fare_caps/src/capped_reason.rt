//! Why a tap is answered as it is under caps.

ghost use Rattle.std.specs.Prelude.{◌≡◌};
ghost use Rattle.account_rule.specs.Replies.{reply_with, ride_reply};
ghost use Rattle.fare_caps.specs.CappedReplies.{replied_by};

use crate::cap_charge::CapCharge;
use account_rule::{Answer, Reply};
use tariffs::Mode;

/// Why the rule replies to a tap as it does under caps. The reply follows from it.
#[derive(Clone, Copy, Debug, PartialEq, Eq)]
pub enum CappedReason {
    /// The table does not know the tap's validator.
    Unknown,
    /// A known tap before it is not earlier: the latest of these is at `latest`.
    Stale {
        latest: u64,
    },
    /// The ride at this moment, on this mode, gives it: it is the last ride before it.
    Transfer {
        moment: u64,
        mode: Mode,
    },
    /// The same, and it raises the price of its trip. Of the window from `start` to `until` is the
    /// last ride before it. Its charge never says that the limit of rides is reached.
    PaidTransfer {
        start: u64,
        until: u64,
        moment: u64,
        mode: Mode,
        charge: CapCharge,
    },
    /// It is a ride of the window that its first ride opened at `start` and that ends at `until`.
    Ride {
        start: u64,
        until: u64,
        charge: CapCharge,
    },
}

impl CappedReason {
    /// The reply to a tap with this reason.
    pub fn reply(self) -> Reply
        ensures { result ≡ replied_by self }
    {
        match self {
            CappedReason::Unknown => free(Answer::Unknown),
            CappedReason::Stale { latest: _ } => free(Answer::Stale),
            CappedReason::Transfer { moment: _, mode: _ } => free(Answer::Transfer),
            CappedReason::PaidTransfer {
                start: _,
                until: _,
                moment: _,
                mode: _,
                charge,
            } => with_cents(Answer::Transfer, charge.cents()),
            CappedReason::Ride {
                start: _,
                until: _,
                charge,
            } => to_ride(charge.paid()),
        }
    }
}

fn free(answer: Answer) -> Reply
    ensures { result ≡ reply_with answer 0 }
{
    with_cents(answer, 0)
}

#[tactic(auto, unfolding(account_rule::specs::Replies::reply_with))]
fn with_cents(answer: Answer, cents: u32) -> Reply
    ensures { result ≡ reply_with answer cents }
{
    Reply { answer, cents }
}

#[tactic(auto, unfolding(account_rule::specs::Replies::ride_reply, account_rule::specs::Replies::reply_with))]
fn to_ride(paid: Option<u32>) -> Reply
    ensures { result ≡ ride_reply paid }
{
    match paid {
        Some(cents) => Reply {
            answer: Answer::Paid,
            cents,
        },
        None => free(Answer::Capped),
    }
}
