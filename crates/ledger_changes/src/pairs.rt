//! The lines of two ledgers, side by side.

ghost use Rattle.ledger_changes.specs.{Changes.agree, inside.Pairs.next_sides};
ghost use Rattle.ledger_changes.specs.inside.{Pairs.pairs_of, Views.pair_of, Views.row_in};
ghost use Rattle.std.specs.Prelude.{◌≡◌, option_map, option_to_list};

use crate::row::{LedgerRow, LineCharge, LineKey};
use std::cmp::Ordering;

/// A line of one bill beside the other's of the same key, or a line that has none beside it.
#[derive(Drop)]
pub(crate) struct LinePair {
    pub(crate) key: LineKey,
    pub(crate) before: Option<LineCharge>,
    pub(crate) after: Option<LineCharge>,
}

/// Which of two ledgers have the next pair's line: both if the keys are the same.
pub(crate) fn next_sides(old: &Option<LedgerRow>, new: &Option<LedgerRow>) -> (bool, bool)
    ensures { result ≡ next_sides (row_in old.now) (row_in new.now) }
{
    match (old, new) {
        (None, None) => (false, false),
        (Some(_), None) => (true, false),
        (None, Some(_)) => (false, true),
        (Some(old), Some(new)) => match old.key.compare(&new.key) {
            Ordering::Less => (true, false),
            Ordering::Equal => (true, true),
            Ordering::Greater => (false, true),
        },
    }
}

impl LinePair {
    pub(crate) fn of_rows(before: Option<LedgerRow>, after: Option<LedgerRow>) -> Option<LinePair>
        ensures { option_to_list (option_map pair_of result)
            ≡ pairs_of (row_in before) (row_in after) }
    {
        match (before, after) {
            (None, None) => None,
            (Some(before), None) => Some(LinePair {
                key: before.key,
                before: Some(before.charge),
                after: None,
            }),
            (None, Some(after)) => Some(LinePair {
                key: after.key,
                before: None,
                after: Some(after.charge),
            }),
            (Some(before), Some(after)) => Some(LinePair {
                key: before.key,
                before: Some(before.charge),
                after: Some(after.charge),
            }),
        }
    }

    pub(crate) fn agrees(&self) -> bool
        ensures { result ≡ agree (pair_of self.now).before (pair_of self.now).after }
    {
        match (&self.before, &self.after) {
            (None, None) => true,
            (Some(before), Some(after)) => before.is_like(after),
            _ => false,
        }
    }
}
