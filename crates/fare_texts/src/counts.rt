//! The counts that end a line, and the line of totals.

ghost use Rattle.std.specs.Prelude.{◌≡◌, ◌++◌, OnOk, string_bytes};
ghost use Rattle.histories.specs.Sums.{sums_of};
ghost use Rattle.fare_texts.specs.Counts.{counts_text, first_counts, last_counts, totals_line};

use histories::Totals;
use std::alloc::AllocError;

#[tactic(auto, using(crate::proofs::Parts::in_parts))]
/// The totals over all books, or those of a statement.
pub fn write_totals(text: &mut String, totals: &Totals) -> Result<(), AllocError>
    ensures { OnOk result (string_bytes text.new ≡ string_bytes text.old
        ++ totals_line (sums_of totals.now)) }
{
    text.push_str("totals ")?;
    write_counts(text, totals)
}

#[tactic(auto, using(crate::proofs::Parts::in_parts))]
/// The counts that end a line.
pub fn write_counts(text: &mut String, totals: &Totals) -> Result<(), AllocError>
    ensures { OnOk result (string_bytes text.new ≡ string_bytes text.old
        ++ counts_text (sums_of totals.now)) }
{
    write_first_counts(text, totals)?;
    write_last_counts(text, totals)
}

/// Appends `taps 6 paid 3 transfers 2 capped 0`.
#[tactic(auto, unfolding(crate::specs::Counts::first_counts))]
fn write_first_counts(text: &mut String, totals: &Totals) -> Result<(), AllocError>
    ensures { OnOk result (string_bytes text.new ≡ string_bytes text.old
        ++ first_counts (sums_of totals.now)) }
{
    let taps = totals.taps;
    let paid = totals.paid;
    let transfers = totals.transfers;
    let capped = totals.capped;
    write!(
        text,
        "taps {taps} paid {paid} transfers {transfers} capped {capped}"
    )
}

/// Appends ` stale 0 unknown 1 cents 900`, with the end of the line.
#[tactic(auto, unfolding(crate::specs::Counts::last_counts))]
fn write_last_counts(text: &mut String, totals: &Totals) -> Result<(), AllocError>
    ensures { OnOk result (string_bytes text.new ≡ string_bytes text.old
        ++ last_counts (sums_of totals.now)) }
{
    let stale = totals.stale;
    let unknown = totals.unknown;
    let cents = totals.cents;
    writeln!(text, " stale {stale} unknown {unknown} cents {cents}")
}
