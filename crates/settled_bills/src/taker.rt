//! Taps of merged files, taken some at a time.

ghost use Rattle.std.specs.Prelude.{◌≡◌, ◌≤◌, ◌<◌, IfOk, IfSome, IsTrue, OnOk, length, map};
ghost use Rattle.tap_views.specs.TokenOrder.{IsUpTo};
ghost use Rattle.settlement.specs.Posted.{HasName, token_of_tap};
ghost use Rattle.settlement.specs.Nondecreasing.{TapsNondecreasingFrom};
ghost use Rattle.sorted_taps.specs.Reading.{window_bytes};
ghost use Rattle.settled_bills.specs.inside.Taken.{AreFollowing, AreTapsTaken, IsReady};

use placed_files::Placed;
use sorted_taps::{Merge, SortedFault};
use std::alloc::{AllocError, Global};
use tap_views::{MOMENT_LIMIT_MS, TapFields, Token};

pub(crate) const TAKEN_TAPS: usize = 512;

/// Merged files, and the taps that were taken of them last.
#[derive(Drop)]
pub(crate) struct Taker {
    pub(crate) merge: Merge,
    /// Room to read in.
    pub(crate) window: Vec<u8>,
    pub(crate) taps: Vec<TapFields>,
}

#[inline(always)]
pub(crate) fn name_of(tap: &TapFields) -> Token
    ensures token { result ≡ token_of_tap tap.now }
    ensures named { HasName tap.now }
{
    Token::of(&tap.token)
}

#[inline(always)]
fn is_early(tap: &TapFields) -> bool
    ensures { IsTrue result → tap.now.moment < 4_102_444_800_000 }
{
    tap.moment < MOMENT_LIMIT_MS
}

#[inline(always)]
pub(crate) fn may_follow(tap: &TapFields, last: Token, token: Token) -> bool
    ensures early { IsTrue result → tap.now.moment < 4_102_444_800_000 }
    ensures up { IsTrue result → IsUpTo last token }
{
    if token < last {
        return false;
    }
    is_early(tap)
}

/// None if a tap cannot come next after the one before it.
pub(crate) fn last_of(taps: &[TapFields], last: Token) -> Option<Token>
    ensures { IfSome result (AreFollowing last taps.now) }
{
    let mut last = last;
    for tap in taps {
        let token = name_of(tap);
        if !may_follow(tap, last, token) {
            return None;
        }
        last = token;
    }
    Some(last)
}

impl Taker {
    pub(crate) fn of(alloc: Global, merge: Merge, window: Vec<u8>) -> Result<Self, AllocError>
        requires { window_bytes ≤ length window.items }
        ensures ready { IfOk result (IsReady (length merge.readers.items)) }
        ensures merge { IfOk result (λ taker. taker.merge ≡ merge) }
    {
        let taps = Vec::with_capacity(alloc, TAKEN_TAPS)?;
        Ok(Taker {
            merge,
            window,
            taps,
        })
    }

    /// The next taps, in place of the last ones: enough of them, and what a step of the merge takes
    /// more. None only at the ends of all files or at the bound.
    pub(crate) fn take<F: Placed>(
        &mut self,
        files: &[F],
        from: Token,
        below: Option<Token>,
        enough: usize,
    ) -> Result<(), SortedFault>
        requires ready { IsReady (length files.now) self.old }
        requires enough { 0 < enough }
        ensures ready { OnOk result (IsReady (length files.now) self.new) }
        ensures taken { OnOk result (AreTapsTaken (map F.bytes files.now)
            self.old.merge.readers.items self.new.taps.items self.new.merge.readers.items) }
        ensures nondecreasing { OnOk result (TapsNondecreasingFrom from self.new.taps.items) }
    {
        self.merge
            .take(files, &mut self.window, below, enough, &mut self.taps)?;
        // proof: no batch has a later moment, and no reader goes back
        match last_of(&self.taps, from) {
            Some(_) => Ok(()),
            None => Err(SortedFault::Unread),
        }
    }
}
