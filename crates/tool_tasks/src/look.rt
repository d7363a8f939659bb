//! `uploads --look`: what uploads have, and what is found in them.

use crate::counted::Counted;
use crate::fault::Fault;
use crate::informs::{ended_informing, load_upload};
use crate::loads::load;
use crate::look::counts::counts_of;
use crate::look::rows::table_of;
use crate::uploads::upload_text;
use fare_table::{FareTable, ReadFareTable, TableFault};
use std::alloc::Global;
use tap_views::{Facts, MOMENT_LIMIT_MS, MomentSpan, NoMemory, TapFields, facts_of};
use tool_words::LookWords;
use upload_checks::{InactiveDays, find_inactive_days, look};
use world::World;

mod counts;
mod found_texts;
mod rows;

fn read_table<'a>(alloc: Global, word: &'a str, text: &[u8]) -> Result<FareTable, Fault<'a>> {
    match FareTable::read(alloc, text) {
        Ok(table) => Ok(table),
        Err(TableFault::NoMemory) => Err(Fault::NoMemory),
        Err(fault) => Err(Fault::FareTable(word, fault)),
    }
}

/// Validators that are inactive on a day: each day of the span, if both its ends are given.
fn inactive_of(
    alloc: Global,
    words: &LookWords<'_>,
    table: &Option<FareTable>,
    taps: &[TapFields],
) -> Result<Option<InactiveDays>, NoMemory> {
    let Some(table) = table else {
        return Ok(None);
    };
    let days = MomentSpan {
        first: words.first.unwrap_or(0),
        last: words.last.unwrap_or(u64::MAX).min(MOMENT_LIMIT_MS - 1),
    };
    let every_day = words.first.is_some() && words.last.is_some();
    let silent = find_inactive_days(alloc, table.first(), days, every_day, taps)?;
    Ok(Some(silent))
}

/// The lines of the upload, or its layout fault if what is found is listed.
fn show_upload<'a, W: World>(
    alloc: Global,
    number: usize,
    word: &'a str,
    facts: &Facts,
    has_list: bool,
    world: &mut W,
) -> Result<(), Fault<'a>> {
    if !has_list {
        let text = upload_text(alloc, number, word, facts)?;
        world.write(text.as_bytes())?;
    } else if let Some((offset, fault)) = facts.fault {
        let _ = world.report_line(Fault::Layout(word, offset, fault));
    }
    Ok(())
}

/// All taps are in memory. Gives whether no upload has a layout fault.
fn look_at<'a, W: World + Counted>(
    alloc: Global,
    words: &LookWords<'a>,
    names: &[&'a str],
    world: &mut W,
) -> Result<bool, Fault<'a>> {
    let table = match words.table {
        Some(word) => Some(read_table(alloc, word, &load(world, word)?)?),
        None => None,
    };
    let mut uploads = Vec::new(alloc);
    let mut succeeded = true;
    for number in 0..names.len() {
        let upload = load_upload(names, number, world)?;
        let facts = facts_of(&upload);
        show_upload(alloc, number, names[number], &facts, words.has_list, world)?;
        succeeded &= facts.fault.is_none();
        uploads.push(upload)?;
    }
    let span = MomentSpan {
        first: words.first.unwrap_or(0),
        last: words.last.unwrap_or(u64::MAX),
    };
    let found = look(alloc, &uploads, words.within, span)?;
    let silent = inactive_of(alloc, words, &table, &found.taps)?;
    let text = if words.has_list {
        table_of(alloc, names, &found, &silent)?
    } else {
        counts_of(alloc, words, &uploads, &found, &silent)?
    };
    world.write(text.as_bytes())?;
    world.flush()?;
    Ok(succeeded)
}

/// Writes what the uploads have, and how much is found in them; or if requested, the list of all
/// that is found, with the layout faults as notes. The status is 0 if all is written and no upload
/// has a layout fault, else 1.
pub fn look_over<W: World + Counted>(
    alloc: Global,
    words: &LookWords<'_>,
    names: &[&str],
    world: &mut W,
) -> u8 {
    ended_informing(look_at(alloc, words, names, world), world)
}
