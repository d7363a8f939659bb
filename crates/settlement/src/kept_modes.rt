//! Modes of validators that were looked up before: most taps then need no search among the ranges.

ghost use Rattle.settlement.specs.Modes.{AreModesOf, IsModeAt, IsModeOf};
ghost use Rattle.std.specs.Prelude.{◌≡◌, ◌<◌, IfSome, length};
ghost use Rattle.tariffs.specs.Fares.{Fares};

use std::alloc::Global;
use tariffs::{FareTable, Mode};

/// Validators that share a position are looked up in turn.
const POSITIONS: usize = 16_384;

/// This shift takes a hash below the number of positions.
const POSITION_SHIFT: u32 = 18;

/// A validator, and its mode under the tariff that is valid first.
#[derive(Clone, Copy)]
pub(crate) struct KeptMode {
    validator: u32,
    mode: Option<Mode>,
}

/// Modes under the first tariff of one table.
#[derive(Drop)]
pub(crate) struct KeptModes {
    list: Vec<KeptMode>,
}

/// The numbers of neighbors spread evenly.
#[inline(always)]
fn position_of(validator: u32) -> usize {
    (validator.wrapping_mul(0x9e37_79b1) >> POSITION_SHIFT) as usize
}

impl KeptModes {
    pub(crate) fn new(alloc: Global) -> Self
        ensures { (fares : Fares) → AreModesOf fares result.list.items }
    {
        KeptModes {
            list: Vec::new(alloc),
        }
    }

    /// The mode of a validator at the moment, as the table has it.
    #[inline(always)]
    pub(crate) fn mode_of(&mut self, table: &FareTable, moment: u64, validator: u32) -> Option<Mode>
        requires { AreModesOf table.now self.old.list.items }
        ensures mode { IsModeAt table.now moment validator result }
        ensures within { IfSome result (λ mode. mode.position < length table.now.meaning.modes) }
        ensures kept { AreModesOf table.now self.new.list.items }
    {
        if table.is_first_at(moment) {
            if let Some(kept) = self.list.get(position_of(validator)) {
                if kept.validator == validator {
                    return kept.mode;
                }
            }
        }
        self.look_up(table, moment, validator)
    }

    #[cold]
    #[inline(never)]
    fn look_up(&mut self, table: &FareTable, moment: u64, validator: u32) -> Option<Mode>
        requires { AreModesOf table.now self.old.list.items }
        ensures mode { IsModeAt table.now moment validator result }
        ensures within { IfSome result (λ mode. mode.position < length table.now.meaning.modes) }
        ensures kept { AreModesOf table.now self.new.list.items }
    {
        let mode = table.mode_of(moment, validator);
        if table.is_first_at(moment) {
            self.keep(KeptMode { validator, mode });
        }
        mode
    }

    /// Without memory nothing is kept.
    fn keep(&mut self, kept: KeptMode)
        ensures { (fares : Fares) → AreModesOf fares self.old.list.items → IsModeOf fares kept
            → AreModesOf fares self.new.list.items }
    {
        if self.list.is_empty() {
            let _refused = self.list.resize(POSITIONS, kept);
        }
        if let Some(other) = self.list.get_mut(position_of(kept.validator)) {
            *other = kept;
        }
    }
}
