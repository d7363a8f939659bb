//! The lines of a token's terms: by the table that is valid first, and by each that follows.

ghost use Rattle.std.specs.Prelude.{◌≡◌, ◌<◌, ◌++◌, List, ℕ, OnOk, length, slice_get, Some};
ghost use Rattle.std.specs.Prelude.{string_bytes};
ghost use Rattle.fare_texts.specs.Explained.{AreLaterTerms, AreTermsLines, IsLaterTerms};
ghost use Rattle.fare_texts.specs.Explained.{terms_line, terms_words};

use crate::write_moment;
use std::alloc::AllocError;
use tariffs::{FareTable, Terms};

/// Appends what a line of terms has after its first words, with the end of the line.
#[tactic(auto, unfolding(crate::specs::Explained::terms_words))]
fn write_words(text: &mut String, terms: Terms) -> Result<(), AllocError>
    ensures { OnOk result (string_bytes text.new ≡ string_bytes text.old ++ terms_words terms) }
{
    let fare = terms.fare;
    let rides = terms.rides;
    let ceiling = terms.ceiling;
    writeln!(text, " fare {fare} rides {rides} ceiling {ceiling}")
}

/// Appends the line of the terms that are valid first.
fn write_first(text: &mut String, terms: Terms) -> Result<(), AllocError>
    ensures { OnOk result (string_bytes text.new ≡ string_bytes text.old ++ terms_line terms) }
{
    text.push_str("terms")?;
    write_words(text, terms)
}

/// Appends the line of terms that are valid from a moment on.
fn write_later(text: &mut String, from: u64, terms: Terms) -> Result<(), AllocError>
    ensures { OnOk result ((line : List ℕ) × IsLaterTerms from terms line
        × (string_bytes text.new ≡ string_bytes text.old ++ line)) }
{
    text.push_str("terms from ")?;
    write_moment(text, from)?;
    write_words(text, terms)?;
    Ok(())
}

/// Appends a line for each table that follows the first one.
fn write_all_later(text: &mut String, table: &FareTable, token: &[u8]) -> Result<(), AllocError>
    requires { length token.now ≡ 16 }
    ensures { OnOk result ((written : List ℕ)
        × AreLaterTerms token.now table.now.later written
        × (string_bytes text.new ≡ string_bytes text.old ++ written)) }
{
    for position in 0..table.later_len() {
        let (from, tariff) = table.later(position);
        write_later(text, from, tariff.terms_of(token))?;
    }
    Ok(())
}

/// Appends the lines of the token's terms: what its rider pays by the table that is valid first,
/// and by each that follows.
pub(crate) fn write_terms(
    text: &mut String,
    table: &FareTable,
    token: &[u8],
) -> Result<(), AllocError>
    requires { length token.now ≡ 16 }
    ensures { OnOk result ((written : List ℕ) × AreTermsLines table.now token.now written
        × (string_bytes text.new ≡ string_bytes text.old ++ written)) }
{
    write_first(text, table.terms_of(token))?;
    write_all_later(text, table, token)?;
    Ok(())
}
