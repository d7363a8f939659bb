//! Prefetch: sixteen accounts are looked up in a row, so that these wait for memory side by side.
//! No promise rests on what is found: a wrong index costs a second look-up.

ghost use Rattle.std.specs.Prelude.{◌≡◌};
ghost use Rattle.shard_book.specs.inside.Accounts.{kept_at, StillRepresents};
ghost use Rattle.shard_book.specs.inside.Packed.{KeepPositions, tokens_of};

use crate::accounts::{Accounts, KeptAccount};
use crate::book::ShardBook;
use tap_views::{NoMemory, RunTaps, Token};

pub(crate) const AT_ONCE: usize = 16;

/// An index at which no account is.
pub(crate) const NO_POSITION: u32 = u32::MAX;

impl KeptAccount {
    /// Prefetch: reads the account and, if it has no window, its counts in the next cache line. True
    /// unless no cent more can be counted then. A false only costs a second look-up.
    #[inline(always)]
    fn prefetch(&self) -> bool {
        self.account.window().is_some() | self.counts.prefetch()
    }
}

impl Accounts {
    /// If there is none, an account without taps is opened.
    pub(crate) fn open_early(&mut self, token: Token) -> Result<u32, NoMemory>
        ensures stays { (other : Token)
            → StillRepresents (kept_at self.old other) (kept_at self.new other) }
        ensures further { self.new.further ≡ self.old.further }
        ensures counting { self.new.counting ≡ self.old.counting }
        ensures positions { KeepPositions (tokens_of self.old) (tokens_of self.new) }
    {
        self.open(token)
    }

    /// Prefetch: returns the index, or `NO_POSITION`.
    #[inline(always)]
    pub(crate) fn prefetch(&self, position: u32) -> u32 {
        match self.map.get_index(position as usize) {
            Some((_, kept)) if kept.prefetch() => position,
            _ => NO_POSITION,
        }
    }
}

impl ShardBook {
    /// If there is none, an account without taps is opened: the book stays as it is.
    fn open_early(&mut self, token: Token) -> Result<u32, NoMemory>
        ensures { self.new ≡ self.old }
    {
        self.accounts.open_early(token)
    }

    /// The same, but the hint is tried first.
    #[inline(always)]
    fn open_hinted(&mut self, token: Token) -> Result<u32, NoMemory>
        ensures { self.new ≡ self.old }
    {
        let hint = self.hints.of(token);
        if self.accounts.is_at(hint, token) {
            return Ok(hint);
        }
        let position = self.open_early(token)?;
        self.hints.keep(token, position, self.accounts.map.len())?;
        Ok(position)
    }

    #[inline(always)]
    pub(crate) fn prefetch_every_sixteenth(
        &mut self,
        slot: usize,
        ahead: &mut RunTaps,
        positions: &mut [u32; AT_ONCE],
    ) -> Result<(), NoMemory>
        ensures { self.new ≡ self.old }
    {
        if slot == 0 {
            self.prefetch(ahead, positions)
        } else {
            Ok(())
        }
    }

    /// Kept out of the posting, so that the registers of either loop are its own.
    #[inline(never)]
    fn prefetch(
        &mut self,
        ahead: &mut RunTaps,
        positions: &mut [u32; AT_ONCE],
    ) -> Result<(), NoMemory>
        ensures { self.new ≡ self.old }
    {
        for position in positions.iter_mut() {
            let Some(tap) = ahead.next() else {
                break;
            };
            *position = self.open_hinted(Token::of(tap.token()))?;
        }
        // A loop of its own, so short that all its reads wait side by side.
        for position in positions.iter_mut() {
            if *position == NO_POSITION {
                break;
            }
            *position = self.accounts.prefetch(*position);
        }
        Ok(())
    }
}
