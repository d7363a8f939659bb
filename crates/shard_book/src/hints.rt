//! Hints of where the account of a token is. No promise rests on them: a wrong one costs a look-up.

use crate::prefetch::NO_POSITION;
use std::alloc::Global;
use tap_views::{NoMemory, Token};

/// How many hints there are, once there is one.
const FIRST_HINTS: usize = 256;

/// So many hints for each account: few accounts then share one.
const HINTS_FOR_EACH: usize = 4;

/// Indices of accounts, by a hash of the token.
#[derive(Drop)]
pub(crate) struct Hints {
    positions: Vec<u32>,
}

impl Hints {
    pub(crate) fn new(alloc: Global) -> Self {
        Hints {
            positions: Vec::new(alloc),
        }
    }

    /// Where the token's account may be.
    #[inline(always)]
    pub(crate) fn of(&self, token: Token) -> u32 {
        match self.positions.get(self.slot(token)) {
            Some(position) => *position,
            None => NO_POSITION,
        }
    }

    /// With too many accounts all hints are dropped for twice as many.
    #[cold]
    #[inline(never)]
    pub(crate) fn keep(
        &mut self,
        token: Token,
        position: u32,
        accounts: usize,
    ) -> Result<(), NoMemory> {
        let hints = self.positions.len();
        if hints / HINTS_FOR_EACH < accounts {
            self.positions.clear();
            let more = hints.saturating_mul(2).max(FIRST_HINTS);
            self.positions.resize(more, NO_POSITION)?;
        }
        let slot = self.slot(token);
        if let Some(hint) = self.positions.get_mut(slot) {
            *hint = position;
        }
        Ok(())
    }

    /// The numbers of like tokens spread evenly.
    #[inline(always)]
    fn slot(&self, token: Token) -> usize {
        let spread = token.low().wrapping_mul(0x9e37_79b9_7f4a_7c15);
        (spread >> 32) as usize & self.positions.len().wrapping_sub(1)
    }
}
