//! The line that says that a ledger is legal.

ghost use Rattle.std.specs.Prelude.{◌≡◌, ◌++◌, OnOk, string_bytes};
ghost use Rattle.ledger_check.specs.FullChecks.{legal_text, order_text};

use std::alloc::AllocError;

#[tactic(auto, unfolding(crate::specs::FullChecks::order_text))]
fn write_order(text: &mut String, early: Option<u64>) -> Result<(), AllocError>
    ensures { OnOk result (string_bytes text.new ≡ string_bytes text.old ++ order_text early) }
{
    match early {
        None => text.push_str(", settled\n"),
        Some(line) => write!(
            text,
            ", not settled: line {line} is earlier than the line before\n"
        ),
    }
}

/// Appends `legal 6 lines, settled`, or the first line that is earlier than the line before it.
#[tactic(auto, unfolding(crate::specs::FullChecks::legal_text))]
pub fn write_legal(text: &mut String, entries: u64, early: Option<u64>) -> Result<(), AllocError>
    ensures { OnOk result
        (string_bytes text.new ≡ string_bytes text.old ++ legal_text entries early) }
{
    write!(text, "legal {entries} lines")?;
    write_order(text, early)
}
