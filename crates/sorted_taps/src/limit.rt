//! Up to where the next taps of readers are merged.

ghost use Rattle.std.specs.Prelude.{◌≡◌, List, IfSome};
ghost use Rattle.tap_parts.specs.Keys.{tap_of_key};
ghost use Rattle.tap_views.specs.declared.encoder.TapFields.{TapFields};
ghost use Rattle.sorted_taps.specs.Merged.{IsNotBefore};
ghost use Rattle.sorted_taps.specs.inside.Limits.{IsFrontOf, IsLimitOf};

use crate::reader::TapReader;
use tap_parts::TapKey;
use tap_views::{TapFields, Token};

/// Of more files a step takes taps of several tokens.
const FEW_FILES: usize = 64;

/// The least token at which a reader is, and the least of the taps that readers store last.
#[derive(Clone, Copy)]
pub(crate) struct Front {
    token: Token,
    last: TapKey,
}

#[inline(always)]
fn lesser(one: TapKey, other: TapKey) -> TapKey
    ensures one { IsNotBefore (tap_of_key result) (tap_of_key one) }
    ensures other { IsNotBefore (tap_of_key result) (tap_of_key other) }
{
    if other.is_before(one) { other } else { one }
}

impl Front {
    #[inline(always)]
    fn of(first: &TapFields, last: &TapFields) -> Front
        ensures { tap_of_key result.last ≡ last.now }
    {
        Front {
            token: Token::of(&first.token),
            last: TapKey::of(last),
        }
    }

    #[inline(always)]
    fn least(self, other: Front) -> Front
        ensures one { IsNotBefore (tap_of_key result.last) (tap_of_key self.last) }
        ensures other { IsNotBefore (tap_of_key result.last) (tap_of_key other.last) }
    {
        Front {
            token: self.token.min(other.token),
            last: lesser(self.last, other.last),
        }
    }

    /// False if the token is not below the bound.
    pub(crate) fn is_below(&self, bound: Option<Token>) -> bool {
        match bound {
            Some(bound) => self.token < bound,
            None => true,
        }
    }

    fn ends_below(&self, bound: Option<Token>) -> bool {
        match bound {
            Some(bound) => Token::of(&self.last.tap().token) < bound,
            None => true,
        }
    }

    /// After all taps with the token, but for those that readers do not store yet. Of many files each
    /// would be looked at for each token, so it is after all that can be taken below the bound.
    pub(crate) fn limit(&self, files: usize, bound: Option<Token>) -> TapKey
        ensures { IsNotBefore (tap_of_key result) (tap_of_key self.now.last) }
    {
        let end = if files > FEW_FILES && self.ends_below(bound) {
            self.last
        } else {
            TapKey::of(&TapFields {
                token: self.token.bytes(),
                moment: u64::MAX,
                validator: u32::MAX,
            })
        };
        lesser(end, self.last)
    }
}

/// With a reader of which these taps are in memory.
#[inline(always)]
fn least_front(front: Option<Front>, ahead: &[TapFields]) -> Option<Front>
    ensures kept { (list : List TapFields) → IsFrontOf front list → IsFrontOf result list }
    ensures last { IsFrontOf result ahead.now }
{
    let (Some(first), Some(last)) = (ahead.first(), ahead.last()) else {
        return front;
    };
    let other = Front::of(first, last);
    match front {
        Some(front) => Some(front.least(other)),
        None => Some(other),
    }
}

/// None if all readers are at their files' ends.
pub(crate) fn front_of(readers: &[TapReader]) -> Option<Front>
    ensures { IfSome result (λ front. IsLimitOf readers.now (tap_of_key front.last)) }
{
    let mut front: Option<Front> = None;
    for reader in readers {
        front = least_front(front, reader.ahead());
    }
    front
}
