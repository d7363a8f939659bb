//! Between which modes a ride includes a transfer.
ghost use Rattle.std.specs.Prelude.{◌≡◌, ◌<◌, [], OnOk, OnErr};
ghost use Rattle.tariffs.specs.Transfers.{has_pair, with_pair};

use crate::mode::MAX_MODES;
use std::alloc::Global;
use std::marker::Model;
use tap_views::NoMemory;

/// Pairs of indices of modes, each once, in the order in which they were added.
#[derive(Drop)]
pub struct Transfers {
    pairs: Vec<(u8, u8)>,
    /// Bit `to` of the mask at `from` represents the pair, so that a look-up reads one mask.
    masks: [u32; MAX_MODES],
}

impl Model for Transfers {
    ghost use Rattle.std.specs.Prelude.{◌≡◌, ℕ, List, length};
    ghost use Rattle.tariffs.specs.inside.Transfers.{AreMasksOf};

    ghost Value = { List (ℕ × ℕ) };

    ghost view = { λ t. t.pairs.items };

    ghost invariant = { λ t. AreMasksOf t.masks t.pairs.items };
}

impl Transfers {
    /// No permitted transfer.
    pub fn new(alloc: Global) -> Transfers
        ensures { result ≡ [] }
    {
        Transfers {
            pairs: Vec::new(alloc),
            masks: [0; MAX_MODES],
        }
    }

    pub(crate) fn all(&self) -> &[(u8, u8)]
        ensures { result.now ≡ self.now }
    {
        self.pairs.as_slice()
    }

    pub(crate) fn permits(&self, from: u8, to: u8) -> bool
        requires from { from < 32 }
        requires to { to < 32 }
        ensures { result ≡ has_pair self.now from to }
    {
        (self.masks[from as usize] >> to) & 1 == 1
    }

    /// Adds a pair that is not yet among them. Unchanged if an allocation fails.
    pub fn add(&mut self, from: u8, to: u8) -> Result<(), NoMemory>
        requires from { from < 32 }
        requires to { to < 32 }
        ensures ok { OnOk result (self.new ≡ with_pair self.old from to) }
        ensures err { OnErr result (self.new ≡ self.old) }
    {
        if !self.permits(from, to) {
            self.pairs.push((from, to))?;
            self.masks[from as usize] |= 1 << to;
        }
        Ok(())
    }
}
