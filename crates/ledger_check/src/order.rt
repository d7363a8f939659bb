//! The order in which a ledger's taps come.

ghost use Rattle.ledger_check.specs.Orders.{IsOrderOf, comes_before};
ghost use Rattle.std.specs.Ordering.{is_lt};
ghost use Rattle.std.specs.Prelude.{◌≡◌, ◌++◌, ◌∷◌, [], List, IfOk, None, Some, if◌then◌else◌};
ghost use Rattle.tap_views.specs.{TapOrder.tap_cmp, declared.encoder.TapFields.TapFields as ATap};

use std::alloc::AllocError;
use tap_views::TapFields;

/// The order of a ledger's taps, which come line by line.
#[derive(Clone, Copy)]
pub(crate) struct TapOrder {
    last: Option<TapFields>,
    /// How many lines came, the header line included.
    lines: u64,
    /// The number of the first line that is earlier than the line before it.
    pub(crate) early: Option<u64>,
}

fn is_less(tap: &TapFields, other: &TapFields) -> bool
    ensures { result ≡ is_lt (tap_cmp tap.now other.now) }
{
    tap.cmp(other).is_lt()
}

fn comes_before(tap: &TapFields, last: &Option<TapFields>) -> bool
    ensures { result ≡ comes_before tap.now last.now }
{
    match last {
        Some(last) => is_less(tap, last),
        None => false,
    }
}

fn number_if(is_requested: bool, number: u64) -> Option<u64>
    ensures { result ≡ (if is_requested then Some number else None) }
{
    if is_requested { Some(number) } else { None }
}

impl TapOrder {
    pub(crate) fn new() -> TapOrder
        ensures { IsOrderOf [] result }
    {
        TapOrder {
            last: None,
            lines: 1,
            early: None,
        }
    }

    /// 2^64 lines count as an allocation failure.
    pub(crate) fn with(self, tap: &TapFields) -> Result<TapOrder, AllocError>
        ensures { IfOk result (λ order. (taps : List ATap) → IsOrderOf taps self
            → IsOrderOf (taps ++ tap.now ∷ []) order) }
    {
        let Some(lines) = self.lines.checked_add(1) else {
            return Err(AllocError);
        };
        let is_early = comes_before(tap, &self.last);
        let early = self.early.or(number_if(is_early, lines));
        Ok(TapOrder {
            last: Some(*tap),
            lines,
            early,
        })
    }
}
