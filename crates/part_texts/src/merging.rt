//! Texts of parts, merged.

ghost use Rattle.fare_texts.specs.{LedgerLines.head_text, ReportLines.validator_line};
ghost use Rattle.histories.specs.Sums.{sums_of};
ghost use Rattle.part_texts.specs.{Merged.report_front, Merged.whole_front, Reads.MergesAs};
ghost use Rattle.part_texts.specs.inside.Fronts.{fronts_view, shown_sums};
ghost use Rattle.part_texts.specs.inside.Opened.{AreRead, IsInitial, IsRead, piece};
ghost use Rattle.recorded_lines.specs.Texts.{Follows, IsFresh, calls_of};
ghost use Rattle.report_texts.specs.Report.{upload_lines, uploads_section, validators_section};
ghost use Rattle.std.specs.{List.AllZip, List.flat_map, Prelude.◌≡◌};
ghost use Rattle.std.specs.Prelude.{◌++◌, ◌<◌, IfErr, IfOk, OnOk, All, length, map, string_bytes};
ghost use Rattle.tap_views.specs.declared.upload_end.UploadEnd.TheVariants.{Posted};
ghost use Rattle.world.specs.{Run.with_written, Writes.IsCut};

use crate::fault::MergeFault;
use crate::fronts::{Fronts, Open, Refusal, Stage, no_totals};
use fare_texts::{head_line, write_totals};
use histories::{Totals, ValidatorSum};
use line_folds::{NextLine, ReadFault};
use recorded_lines::Lines;
use report_texts::{Wrong, write_section_head, write_upload, write_validator};
use std::alloc::{AllocError, Global};
use std::collections::BTreeMap;
use tap_views::UploadEnd;
use world::{World, WriteFault};

fn copy<W: World>(world: &mut W, line: &[u8], is_copied: bool) -> Result<(), WriteFault>
    ensures whole { OnOk result
        (W.run world.new ≡ with_written (W.run world.old) (piece is_copied line.now)) }
    ensures cut { IfErr result
        (IsCut (W.run world.old) (W.run world.new) (piece is_copied line.now)) }
{
    if is_copied { world.write(line) } else { Ok(()) }
}

/// Reads the part at this place from the line of this number on, and gives the number of the line
/// that follows: its front, or all lines, each of which is copied.
fn read_part<W: World>(
    alloc: Global,
    from: &mut Lines,
    position: usize,
    first: u64,
    is_copied: bool,
    parts: &mut Fronts,
    world: &mut W,
) -> Result<u64, MergeFault>
    ensures { IsRead is_copied (position, first) (fronts_view parts.old) (fronts_view parts.new)
        from.old from.new (W.run world.old) (W.run world.new) result }
{
    let mut line = Vec::new(alloc);
    for number in first..u64::MAX {
        if parts.is_over(is_copied) {
            return Ok(number);
        }
        match from.read_line(&mut line) {
            Ok(NextLine::Whole) => {}
            Ok(NextLine::End) => match parts.end() {
                None => return Ok(number),
                Some(why) => {
                    return Err(MergeFault::Line {
                        text: position,
                        number,
                        why,
                    });
                }
            },
            Ok(NextLine::Long) => {
                return Err(MergeFault::Line {
                    text: position,
                    number,
                    why: Wrong::Form,
                });
            }
            Err(ReadFault::Unread) => return Err(MergeFault::Unread(position)),
            Err(ReadFault::NoMemory) => return Err(MergeFault::NoMemory),
        }
        match parts.take(&line) {
            Ok(()) => {}
            Err(Refusal::Wrong(why)) => {
                return Err(MergeFault::Line {
                    text: position,
                    number,
                    why,
                });
            }
            Err(Refusal::NoMemory) => return Err(MergeFault::NoMemory),
        }
        match copy(world, &line, is_copied) {
            Ok(()) => {}
            Err(why) => return Err(MergeFault::Write(why)),
        }
    }
    Err(MergeFault::NoMemory)
}

/// Reads the fronts of all parts, or all their lines, each of which is copied.
fn read_parts<W: World>(
    alloc: Global,
    from: &mut [Lines],
    opens: &mut [Open],
    is_copied: bool,
    world: &mut W,
) -> Result<Fronts, MergeFault>
    requires { length opens.old ≡ length from.old }
    ensures follow { AllZip Follows from.old from.new }
    ensures number { length opens.new ≡ length from.new }
    ensures read { AreRead is_copied opens.old opens.new from.old from.new (W.run world.old)
        (W.run world.new) result }
{
    let count = from.len();
    let mut parts = Fronts::new(alloc);
    for position in 0..count {
        let open = opens[position];
        parts.begin(&open, position, count);
        match read_part(
            alloc,
            &mut from[position],
            position,
            open.number,
            is_copied,
            &mut parts,
            world,
        ) {
            Ok(number) => {
                opens[position] = Open {
                    stage: parts.stage,
                    number,
                    part: parts.part,
                };
            }
            Err(fault) => return Err(fault),
        }
    }
    Ok(parts)
}

fn write_uploads(text: &mut String, taps: &[u64]) -> Result<(), AllocError>
    ensures { OnOk result (string_bytes text.new
        ≡ string_bytes text.old ++ uploads_section (map Posted taps.now)) }
{
    write_section_head(text, "uploads ", taps.len() as u128)?;
    write_upload_lines(text, taps)
}

#[tactic(auto, using(crate::proofs::WholeTexts::uploads_more))]
fn write_upload_lines(text: &mut String, taps: &[u64]) -> Result<(), AllocError>
    ensures { OnOk result (string_bytes text.new
        ≡ string_bytes text.old ++ upload_lines 0 (map Posted taps.now)) }
{
    for (upload, taps) in taps.iter().enumerate() {
        write_upload(text, upload as u64, &UploadEnd::Posted { taps: *taps })?;
    }
    Ok(())
}

fn write_validators(text: &mut String, validators: &BTreeMap<u32, Totals>) -> Result<(), AllocError>
    ensures { OnOk result (string_bytes text.new ≡ string_bytes text.old
        ++ validators_section (shown_sums sums_of validators.now.entries)) }
{
    write_section_head(text, "validators ", validators.len() as u128)?;
    write_validator_lines(text, validators)?;
    Ok(())
}

fn write_validator_lines(
    text: &mut String,
    validators: &BTreeMap<u32, Totals>,
) -> Result<(), AllocError>
    ensures { OnOk result (string_bytes text.new ≡ string_bytes text.old
        ++ flat_map validator_line (shown_sums sums_of validators.now.entries)) }
{
    for (validator, totals) in validators.iter() {
        let validator = *validator;
        let totals = *totals;
        write_validator(text, &ValidatorSum { validator, totals })?;
    }
    Ok(())
}

fn report_front(alloc: Global, fronts: Fronts) -> Result<Vec<u8>, AllocError>
    ensures { IfOk result (λ text. text.items ≡ report_front (fronts_view fronts)) }
{
    let taps = fronts.taps.into_vec();
    let mut text = String::new(alloc);
    write_uploads(&mut text, &taps)?;
    write_totals(&mut text, &fronts.totals)?;
    write_validators(&mut text, &fronts.validators)?;
    write_section_head(&mut text, "tokens ", u128::from(fronts.tokens))?;
    Ok(text.into_bytes())
}

fn header(alloc: Global) -> Result<Vec<u8>, AllocError>
    ensures { IfOk result (λ text. text.items ≡ head_text) }
{
    let mut text = Vec::new(alloc);
    text.extend_from_slice(head_line().as_bytes())?;
    Ok(text)
}

fn whole_front(alloc: Global, fronts: Fronts) -> Result<Vec<u8>, AllocError>
    ensures { IfOk result (λ text. text.items ≡ whole_front (fronts_view fronts)) }
{
    if fronts.is_ledger {
        header(alloc)
    } else {
        report_front(alloc, fronts)
    }
}

fn initial(alloc: Global, count: usize) -> Result<Vec<Open>, AllocError>
    ensures number { IfOk result (λ opens. length opens.items ≡ count) }
    ensures none { IfOk result (λ opens. All IsInitial opens.items) }
{
    let mut opens = Vec::new(alloc);
    opens.resize(
        count,
        Open {
            stage: Stage::Head,
            number: 1,
            part: no_totals(),
        },
    )?;
    Ok(opens)
}

fn merge_initial<W: World>(
    alloc: Global,
    parts: &mut [Lines],
    opens: &mut [Open],
    world: &mut W,
) -> Result<(), MergeFault>
    requires some { 0 < length parts.old }
    requires fresh { All IsFresh parts.old }
    requires initial { All IsInitial opens.old }
    requires number { length opens.old ≡ length parts.old }
    ensures follow { AllZip Follows parts.old parts.new }
    ensures merges { MergesAs (map calls_of parts.new) (W.run world.old) (W.run world.new) result }
{
    let fronts = match read_parts(alloc, parts, opens, false, world) {
        Ok(fronts) => fronts,
        Err(fault) => return Err(fault),
    };
    let Ok(text) = whole_front(alloc, fronts) else {
        return Err(MergeFault::NoMemory);
    };
    match world.write(&text) {
        Ok(()) => {}
        Err(why) => return Err(MergeFault::Write(why)),
    }
    match read_parts(alloc, parts, opens, true, world) {
        Ok(_) => Ok(()),
        Err(fault) => Err(fault),
    }
}

/// Merges the texts of parts, in their order: all reports, or all ledgers. All fronts are read
/// before the first byte is written.
pub fn merge<W: World>(alloc: Global, parts: &mut [Lines], world: &mut W) -> Result<(), MergeFault>
    requires { All IsFresh parts.old }
    ensures follow { AllZip Follows parts.old parts.new }
    ensures merges { MergesAs (map calls_of parts.new) (W.run world.old) (W.run world.new) result }
{
    if parts.is_empty() {
        return Err(MergeFault::Line {
            text: 0,
            number: 1,
            why: Wrong::Form,
        });
    }
    let Ok(mut opens) = initial(alloc, parts.len()) else {
        return Err(MergeFault::NoMemory);
    };
    merge_initial(alloc, parts, &mut opens, world)
}
