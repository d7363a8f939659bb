//! The lines of a share of some taps, made by a thread of its own.

ghost use Rattle.std.specs.Prelude.{◌≡◌, ◌≤◌, length, true};
ghost use Rattle.settled_bills.specs.inside.WorkerSlots.{HasSat, IsSoundList, IsWhole};

use crate::lines::explain_taps;
use fare_texts::Explainer;
use settlement::token_of;
use std::alloc::Global;
use tap_views::{TapFields, Token};
use tariffs::{Clock, FareTable};

/// The most taps whose lines a slot makes, so that its text stays small.
const SLOT_TAPS: usize = 65_536;

/// The first position from this one on, but 0, at which another token begins.
fn token_begin(taps: &[TapFields], from: usize) -> usize
    ensures { result ≤ length taps.now }
{
    for position in from.max(1)..taps.len() {
        if taps[position].token != taps[position - 1].token {
            return position;
        }
    }
    taps.len()
}

/// What one worker made of its share of the taps.
#[derive(Drop)]
pub(crate) struct WorkerSlot {
    /// Its taps begin here.
    pub(crate) begin: usize,
    /// The position after its last tap.
    pub(crate) end: usize,
    /// The token of its first tap.
    pub(crate) first: Token,
    /// The token of its last tap, with the account after that.
    pub(crate) explainer: Explainer,
    pub(crate) text: String,
    /// Whether all its taps have their lines, if its first token had none before.
    pub(crate) is_whole: bool,
}

impl WorkerSlot {
    pub(crate) fn new(alloc: Global) -> Self {
        let first = Token::of(&[0; 16]);
        WorkerSlot {
            begin: 0,
            end: 0,
            first,
            explainer: Explainer::of(first),
            text: String::new(alloc),
            is_whole: false,
        }
    }

    /// A list that is too long or empty, or for which an allocation fails, is left to the caller.
    fn explain(&mut self, table: &FareTable, clock: &Clock, list: &[TapFields])
        requires clock { clock.now ≡ table.now.zone }
        requires sound { IsSoundList list.now }
        ensures whole { self.new.is_whole ≡ true → IsWhole table.now list.now self.new }
        ensures begin { self.new.begin ≡ self.old.begin }
        ensures end { self.new.end ≡ self.old.end }
    {
        self.is_whole = false;
        if list.len() > SLOT_TAPS {
            return;
        }
        let Some(first) = list.first() else {
            return;
        };
        self.first = token_of(first);
        self.explainer = Explainer::of(self.first);
        self.text.clear();
        let Ok(()) = explain_taps(&mut self.text, table, clock, &mut self.explainer, list) else {
            return;
        };
        self.is_whole = true;
    }

    /// Of as many shares as there are workers it takes the one at its position, from where a token
    /// begins.
    pub(crate) fn take(
        &mut self,
        table: &FareTable,
        clock: &Clock,
        taps: &[TapFields],
        position: usize,
        share: usize,
    )
        requires clock { clock.now ≡ table.now.zone }
        requires sound { IsSoundList taps.now }
        ensures { HasSat table.now taps.now self.new }
    {
        self.is_whole = false;
        self.begin = token_begin(taps, position.saturating_mul(share));
        self.end = token_begin(taps, position.saturating_add(1).saturating_mul(share));
        if self.begin < self.end {
            self.explain(table, clock, &taps[self.begin..self.end]);
        }
    }
}
