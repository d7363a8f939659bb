//! The lines of a finding.

ghost use Rattle.std.specs.Prelude.{◌≡◌, ◌++◌, ℕ, List, OnOk, string_bytes};
ghost use Rattle.omny_audit.specs.Text.{AreTapLines, IsDifferenceText, IsDifferencesText, IsTapLine};
ghost use Rattle.omny_audit.specs.Text.{space_and_validator, token_and_space, verdict_text};

use fare_texts::{Digits, write_moment};
use ledger_check::{Difference, Verdict, write_legal};
use std::alloc::AllocError;
use tap_views::{TapFields, Token};

#[tactic(auto, unfolding(crate::specs::Text::verdict_text))]
pub(crate) fn write_verdict(text: &mut String, verdict: &Verdict) -> Result<(), AllocError>
    ensures { OnOk result
        (string_bytes text.new ≡ string_bytes text.old ++ verdict_text verdict.now) }
{
    match verdict {
        Verdict::Legal(entries, early) => write_legal(text, *entries, *early),
        Verdict::Wants(line, wanted) => write!(text, "line {line} wants {wanted}"),
        Verdict::NoLine(line) => write!(text, "line {line} is no ledger line\n"),
    }
}

#[tactic(auto, unfolding(crate::specs::Text::token_and_space))]
fn write_token(text: &mut String, tap: &TapFields) -> Result<(), AllocError>
    ensures { OnOk result
        (string_bytes text.new ≡ string_bytes text.old ++ token_and_space tap.now) }
{
    let digits = Digits(Token::of(&tap.token));
    write!(text, "{digits} ")
}

#[tactic(auto, unfolding(crate::specs::Text::space_and_validator))]
fn write_validator(text: &mut String, tap: &TapFields) -> Result<(), AllocError>
    ensures { OnOk result
        (string_bytes text.new ≡ string_bytes text.old ++ space_and_validator tap.now) }
{
    let validator = tap.validator;
    write!(text, " {validator}\n")
}

fn write_tap_line(text: &mut String, words: &str, tap: &TapFields) -> Result<(), AllocError>
    ensures { OnOk result ((written : List ℕ) × IsTapLine words.now tap.now written
        × (string_bytes text.new ≡ string_bytes text.old ++ written)) }
{
    text.push_str(words)?;
    write_token(text, tap)?;
    write_moment(text, tap.moment)?;
    write_validator(text, tap)?;
    Ok(())
}

pub(crate) fn write_difference(
    text: &mut String,
    difference: &Option<Difference>,
) -> Result<(), AllocError>
    ensures { OnOk result ((written : List ℕ) × IsDifferenceText difference.now written
        × (string_bytes text.new ≡ string_bytes text.old ++ written)) }
{
    match difference {
        None => text.push_str("all taps of the uploads\n"),
        Some(Difference::Missing(tap)) => write_tap_line(text, "missing tap ", tap),
        Some(Difference::Surplus(tap)) => write_tap_line(text, "surplus tap ", tap),
    }
}

fn write_tap_lines(text: &mut String, words: &str, taps: &[TapFields]) -> Result<(), AllocError>
    ensures { OnOk result ((written : List ℕ) × AreTapLines words.now taps.now written
        × (string_bytes text.new ≡ string_bytes text.old ++ written)) }
{
    for tap in taps {
        write_tap_line(text, words, tap)?;
    }
    Ok(())
}

pub(crate) fn write_differences(
    text: &mut String,
    missing: &[TapFields],
    surplus: &[TapFields],
) -> Result<(), AllocError>
    ensures { OnOk result ((written : List ℕ) × IsDifferencesText missing.now surplus.now written
        × (string_bytes text.new ≡ string_bytes text.old ++ written)) }
{
    let is_none = missing.is_empty() & surplus.is_empty();
    if is_none {
        write_difference(text, &None)?;
        return Ok(());
    }
    write_tap_lines(text, "missing tap ", missing)?;
    write_tap_lines(text, "surplus tap ", surplus)?;
    Ok(())
}
