//! How many rows there are of each kind, and the span of the taps.

ghost use Rattle.std.specs.Prelude.{◌≡◌, ◌<◌, ◌+◌, ◌∷◌, ◌++◌, ◌^◌, ◌-◌, [], ℕ, List, None, Some};
ghost use Rattle.std.specs.Prelude.{length};
ghost use Rattle.tap_views.specs.Facts.{IsSpan};
ghost use Rattle.tap_rows.specs.Agencies.{IsSummary};

use crate::agency::reading::{Reading, Reason};
use tap_views::MomentSpan;

/// How many rows there are of each kind, and what is the first of some.
#[derive(Clone, Copy, Debug, PartialEq, Eq)]
pub struct Summary {
    pub taps: u64,
    /// How many rows are not kept.
    pub left_out: u64,
    /// How many rows are not taps.
    pub refused: u64,
    /// The number of the first row that is not a tap, and why. The head is row 1.
    pub first_refused: Option<(u64, Reason)>,
    /// The first and the last moment; none if there is no tap.
    pub span: Option<MomentSpan>,
}

impl Summary {
    pub(crate) fn new() -> Summary
        ensures { IsSummary [] [] result }
    {
        Summary {
            taps: 0,
            left_out: 0,
            refused: 0,
            first_refused: None,
            span: None,
        }
    }

    /// How many rows there are.
    pub fn rows(&self) -> u128
        ensures { result ≡ self.now.taps + self.now.left_out + self.now.refused }
    {
        u128::from(self.taps) + u128::from(self.left_out) + u128::from(self.refused)
    }
}

fn widened(span: Option<MomentSpan>, moment: u64) -> Option<MomentSpan>
    ensures { (moments : List ℕ) → IsSpan moments span → IsSpan (moments ++ moment ∷ []) result }
{
    match span {
        None => Some(MomentSpan {
            first: moment,
            last: moment,
        }),
        Some(span) => Some(MomentSpan {
            first: span.first.min(moment),
            last: span.last.max(moment),
        }),
    }
}

fn first_of(first: Option<(u64, Reason)>, number: u64, reason: Reason) -> Option<(u64, Reason)>
    ensures none { first ≡ None → result ≡ Some (number, reason) }
    ensures some { ¬ (first ≡ None) → result ≡ first }
{
    match first {
        Some(first) => Some(first),
        None => Some((number, reason)),
    }
}

pub(crate) fn with_row(summary: Summary, number: u64, reading: &Reading) -> Summary
    requires { summary.taps + summary.left_out + summary.refused < 2 ^ 64 - 1 }
    ensures { (rows : List (List (List ℕ))) (row : List (List ℕ)) (readings : List Reading)
        → number ≡ length rows + 2 → length readings ≡ length rows
        → IsSummary rows readings summary
        → IsSummary (rows ++ row ∷ []) (readings ++ reading.now ∷ []) result }
{
    let mut more = summary;
    match reading {
        Reading::Tap(tap) => {
            more.taps += 1;
            more.span = widened(more.span, tap.moment);
        }
        Reading::LeftOut => more.left_out += 1,
        Reading::Refused(reason) => {
            more.refused += 1;
            more.first_refused = first_of(more.first_refused, number, *reason);
        }
    }
    more
}
