//! An entry in 16 bytes, as a book stores it.

ghost use Rattle.std.specs.Prelude.{◌≡◌, ◌/◌, ◌%◌, ◌<◌, ◌≤◌, ◌^◌, List, Some, slice_get};
ghost use Rattle.account_rule.specs.declared.reply.Reply.{Reply};
ghost use Rattle.histories.specs.declared.entry.Entry.{Entry};
ghost use Rattle.tap_views.specs.declared.token.Token.{Token};
ghost use Rattle.shard_book.specs.inside.Packed.{answer_at, entry_of, entry_with};
ghost use Rattle.shard_book.specs.inside.Packed.{bits_answer, bits_cents, bits_moment};

use account_rule::{Answer, Reply};
use histories::{Entry, position_of};
use tap_views::Token;

/// 2^42, above every moment.
const MOMENTS: u64 = 4_398_046_511_104;

/// Room for 8 answers, of which there are five.
const ANSWERS: u64 = 8;

/// An entry of the history, with the index of its token's account in place of the token.
#[derive(Clone, Copy, Debug, PartialEq, Eq)]
pub(crate) struct PackedEntry {
    position: u32,
    validator: u32,
    /// The moment in the lowest 42 bits, the answer's number in three, and the cents in 19.
    bits: u64,
}

#[inline(always)]
fn bits_of(moment: u64, reply: Reply) -> u64
    requires early { moment < 2 ^ 42 }
    requires few { reply.cents ≤ 100_000 }
    ensures moment { bits_moment result ≡ moment }
    ensures answer { bits_answer result ≡ reply.answer }
    ensures cents { bits_cents result ≡ reply.cents }
{
    let number = position_of(reply.answer) as u64;
    (u64::from(reply.cents) * ANSWERS + number) * MOMENTS + moment
}

#[inline(always)]
fn answer_of(number: u64) -> Answer
    ensures { result ≡ answer_at number }
{
    match number {
        0 => Answer::Paid,
        1 => Answer::Transfer,
        2 => Answer::Capped,
        3 => Answer::Stale,
        _ => Answer::Unknown,
    }
}

impl PackedEntry {
    #[inline(always)]
    pub(crate) fn of(position: u32, validator: u32, moment: u64, reply: Reply) -> Self
        requires early { moment < 2 ^ 42 }
        requires few { reply.cents ≤ 100_000 }
        ensures position { result.position ≡ position }
        ensures holds { (tokens : List Token) (token : Token)
            → slice_get tokens position ≡ Some token
            → entry_of tokens result ≡ entry_with token validator moment reply }
    {
        PackedEntry {
            position,
            validator,
            bits: bits_of(moment, reply),
        }
    }

    #[inline(always)]
    pub(crate) fn position(&self) -> u32
        ensures { result ≡ self.now.position }
    {
        self.position
    }

    #[inline(always)]
    pub(crate) fn entry(&self, token: Token) -> Entry
        ensures { (tokens : List Token) → slice_get tokens self.now.position ≡ Some token
            → result ≡ entry_of tokens self.now }
    {
        let upper = self.bits / MOMENTS;
        Entry {
            token,
            validator: self.validator,
            moment: self.bits % MOMENTS,
            answer: answer_of(upper % ANSWERS),
            cents: (upper / ANSWERS) as u32,
        }
    }
}

const _: () = prove!(size_of::<PackedEntry>() == 16);
