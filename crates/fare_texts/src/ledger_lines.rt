//! The lines of a token in the ledger.

ghost use Rattle.std.specs.Prelude.{◌≡◌, ◌++◌, OnOk, List, ℕ, codes, string_bytes};
ghost use Rattle.fare_texts.specs.LedgerLines.{AreLedgerLines, head_text};

use crate::explainer::Explainer;
use histories::Entry;
use tap_views::{NoMemory, Token};
use tariffs::{Clock, FareTable};

/// The first line of a ledger, which names the fields.
pub fn head_line() -> &'static str
    ensures { result.now ≡ head_text }
{
    "token,line,moment,validator,mode,answer,cents,window_start,window_end,ride,reason,points_at\n"
}

/// Appends the lines of a token, whose entries these are: each with its number and with the reason
/// that the account rule has for it after those before it. The text alone grows.
pub fn write_token_lines(
    text: &mut String,
    table: &FareTable,
    clock: &Clock,
    token: Token,
    entries: &[Entry],
) -> Result<(), NoMemory>
    requires { clock.now ≡ table.now.zone }
    ensures { OnOk result ((written : List ℕ) × AreLedgerLines table.now token entries.now written
        × (string_bytes text.new ≡ string_bytes text.old ++ written)) }
{
    let mut explainer = Explainer::of(token);
    for entry in entries {
        explainer.write_next(text, table, clock, entry)?;
    }
    Ok(())
}
