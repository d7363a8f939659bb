//! The reply to a tap.

ghost use Rattle.std.specs.Prelude.{◌≡◌};
ghost use Rattle.account_rule.specs.Replies.{reply_with, ride_reply};

/// What became of a tap.
#[derive(Clone, Copy, Debug, PartialEq, Eq)]
pub enum Answer {
    /// A ride below the limits of its window. It costs its fare, which may be 0.
    Paid,
    /// A free transfer from the ride before it (MTA, free transfers).
    Transfer,
    /// A ride that costs nothing, since its window has reached a limit (MTA, fare capping).
    Capped,
    /// A known tap that is not later than all known taps before it (this project's choice).
    Stale,
    /// A tap at a validator that the table does not know (this project's choice).
    Unknown,
}

/// The rule's reply to a tap.
#[derive(Clone, Copy, Debug, PartialEq, Eq)]
pub struct Reply {
    /// What became of the tap.
    pub answer: Answer,
    /// What it costs in cents: 0 unless the answer is `Paid`.
    pub cents: u32,
}

impl Reply {
    #[tactic(auto, unfolding(crate::specs::Replies::reply_with))]
    pub(crate) fn free(answer: Answer) -> Self
        ensures { result ≡ reply_with answer 0 }
    {
        Reply { answer, cents: 0 }
    }

    #[tactic(auto, unfolding(crate::specs::Replies::ride_reply, crate::specs::Replies::reply_with))]
    pub(crate) fn to_ride(paid: Option<u32>) -> Self
        ensures { result ≡ ride_reply paid }
    {
        match paid {
            Some(cents) => Reply {
                answer: Answer::Paid,
                cents,
            },
            None => Reply::free(Answer::Capped),
        }
    }
}
