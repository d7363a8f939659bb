//! The line of a correction.

ghost use Rattle.std.specs.Prelude.{◌≡◌, ◌++◌, IfOk, OnOk, codes, option_map};
ghost use Rattle.std.specs.Fmt.{decimal};
ghost use Rattle.ledger_changes.specs.Texts.{cents_of, change_word, charge_fields};
ghost use Rattle.ledger_changes.specs.Texts.{correction_line, difference};
ghost use Rattle.ledger_changes.specs.inside.Views.{charge_of, pair_of};

use crate::pairs::LinePair;
use crate::row::LineCharge;
use itoa::Buffer;
use std::alloc::{AllocError, Global};

fn change_word(before: &Option<LineCharge>, after: &Option<LineCharge>) -> &'static [u8]
    ensures { result.now
        ≡ change_word (option_map charge_of before.now) (option_map charge_of after.now) }
{
    match (before, after) {
        (None, _) => b"added",
        (Some(_), None) => b"removed",
        (Some(_), Some(_)) => b"changed",
    }
}

pub(crate) fn cents_of(charge: &Option<LineCharge>) -> u32
    ensures { result ≡ cents_of (option_map charge_of charge.now) }
{
    match charge {
        Some(charge) => charge.cents,
        None => 0,
    }
}

fn write_field(text: &mut Vec<u8>, field: &[u8]) -> Result<(), AllocError>
    ensures { OnOk result (text.new.items ≡ text.old.items ++ (codes "," ++ field.now)) }
{
    text.extend_from_slice(b",")?;
    text.extend_from_slice(field)?;
    Ok(())
}

pub(crate) fn write_number(text: &mut Vec<u8>, number: u64) -> Result<(), AllocError>
    ensures { OnOk result (text.new.items ≡ text.old.items ++ (codes "," ++ decimal number)) }
{
    let mut buffer = Buffer::new();
    write_field(text, buffer.format(number).as_bytes())
}

/// Three empty fields if there is no line.
fn write_charge(text: &mut Vec<u8>, charge: &Option<LineCharge>) -> Result<(), AllocError>
    ensures { OnOk result (text.new.items ≡ text.old.items
        ++ charge_fields (option_map charge_of charge.now)) }
{
    match charge {
        Some(charge) => {
            write_field(text, &charge.answer)?;
            write_number(text, u64::from(charge.cents))?;
            write_field(text, &charge.reason)
        }
        None => text.extend_from_slice(b",,,"),
    }
}

pub(crate) fn write_difference(
    text: &mut Vec<u8>,
    before: u64,
    after: u64,
) -> Result<(), AllocError>
    ensures { OnOk result (text.new.items ≡ text.old.items
        ++ (codes "," ++ difference before after)) }
{
    if before <= after {
        write_number(text, after - before)
    } else {
        let mut buffer = Buffer::new();
        text.extend_from_slice(b",-")?;
        text.extend_from_slice(buffer.format(before - after).as_bytes())
    }
}

#[tactic(auto, unfolding(crate::specs::Texts::correction_line))]
pub(crate) fn correction_line(alloc: Global, pair: &LinePair) -> Result<Vec<u8>, AllocError>
    ensures { IfOk result (λ line. line.items ≡ correction_line (pair_of pair.now)) }
{
    let mut line = Vec::new(alloc);
    line.extend_from_slice(&pair.key.token)?;
    write_field(&mut line, &pair.key.moment)?;
    write_number(&mut line, u64::from(pair.key.validator))?;
    write_field(&mut line, change_word(&pair.before, &pair.after))?;
    write_charge(&mut line, &pair.before)?;
    write_charge(&mut line, &pair.after)?;
    write_difference(
        &mut line,
        u64::from(cents_of(&pair.before)),
        u64::from(cents_of(&pair.after)),
    )?;
    line.extend_from_slice(b"\n")?;
    Ok(line)
}
