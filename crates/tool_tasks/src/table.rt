//! `table`: fare tables as they are understood, what their rules ignore, and their faults.

mod following;
mod texts;

use crate::counted::Counted;
use crate::fault::Fault;
use crate::informs::{ended_informing, load_upload};
use crate::loads::load;
use crate::names::Name;
use following::{joined, spans_of};
use jiff::Timestamp;
use std::alloc::{AllocError, Global};
use table_report::{ReportFault, SeenValidators, TableText, Wanted};
use tap_views::{MomentSpan, facts_of};
use texts::read_texts;
use tool_words::TableQuestion;
use world::{Inputs, World};

/// The words of the tables, in order.
fn words_of<'a>(alloc: Global, question: &TableQuestion<'a>) -> Result<Vec<&'a str>, AllocError> {
    let mut words = Vec::new(alloc);
    words.push(question.table)?;
    for later in &question.later {
        words.push(later.file())?;
    }
    Ok(words)
}

fn load_texts<'a, I: Inputs>(
    alloc: Global,
    words: &[&'a str],
    files: &mut I,
) -> Result<Vec<Vec<u8>>, Fault<'a>> {
    let mut texts = Vec::new(alloc);
    for word in words {
        let text = load(files, word)?;
        texts.push(text)?;
    }
    Ok(texts)
}

/// The validators before the first layout fault of each upload, which is noted, at the moments of
/// each table; none if there is no upload. Gives also whether there is no layout fault.
fn seen_in<'a, W: World + Counted>(
    alloc: Global,
    uploads: &[&'a str],
    spans: &[MomentSpan],
    world: &mut W,
) -> Result<(Vec<SeenValidators>, bool), Fault<'a>> {
    let mut seen = Vec::new(alloc);
    let mut are_whole = true;
    if uploads.is_empty() {
        return Ok((seen, are_whole));
    }
    for _span in spans {
        seen.push(SeenValidators::new(alloc))?;
    }
    for number in 0..uploads.len() {
        let upload = load_upload(uploads, number, world)?;
        for (seen, span) in seen.iter_mut().zip(spans.iter()) {
            seen.add(&upload, *span)?;
        }
        if let Some((offset, fault)) = facts_of(&upload).fault {
            are_whole = false;
            let _ = world.report_line(Fault::Layout(uploads[number], offset, fault));
        }
    }
    Ok((seen, are_whole))
}

/// What the tables are understood as.
#[derive(Drop)]
struct Listed {
    text: Vec<u8>,
    /// Whether no warning is a fault.
    succeeded: bool,
    /// Whether a class has a name that SQL does not take.
    has_wrong_name: bool,
}

/// Warnings are noted.
fn list_tables<'a, W: World>(
    alloc: Global,
    question: &TableQuestion<'a>,
    now: Timestamp,
    words: &[&'a str],
    tables: &[TableText<'_>],
    spans: &[MomentSpan],
    seen: &[SeenValidators],
    world: &mut W,
) -> Result<Listed, Fault<'a>> {
    let mut listed = Listed {
        text: Vec::new(alloc),
        succeeded: true,
        has_wrong_name: false,
    };
    for (position, table) in tables.iter().enumerate() {
        let (Some(word), Some(span)) = (words.get(position), spans.get(position)) else {
            break;
        };
        let shown = format!(in alloc; "{}", Name(word))?;
        let wanted = Wanted {
            name: &shown,
            valid_from: if position == 0 {
                None
            } else {
                Some(span.first)
            },
            has_riders: question.has_riders,
            from: question.from.unwrap_or(now),
            is_sql: question.is_sql,
        };
        match table.write(alloc, &wanted, seen.get(position), &mut listed.text) {
            Ok(warnings) if warnings.count == 0 => {}
            Ok(warnings) => {
                let lines = warnings.lines.as_str();
                let _ = world.report_line(lines.strip_suffix("\n").unwrap_or(lines));
                listed.succeeded &= !question.is_strict;
            }
            Err(ReportFault::Name) => {
                listed.has_wrong_name = true;
                break;
            }
            Err(ReportFault::Write) | Err(ReportFault::NoMemory) => return Err(Fault::NoMemory),
        }
    }
    Ok(listed)
}

/// Gives whether nothing is wrong.
fn show_tables<'a, W: World + Counted>(
    alloc: Global,
    question: &TableQuestion<'a>,
    now: Timestamp,
    world: &mut W,
) -> Result<bool, Fault<'a>> {
    let words = words_of(alloc, question)?;
    let texts = load_texts(alloc, &words, world)?;
    let Some(tables) = read_texts(alloc, &words, &texts, world)? else {
        return Ok(false);
    };
    let Some(fares) = joined(alloc, question, &tables, &texts, world)? else {
        return Ok(false);
    };
    let spans = spans_of(alloc, &fares)?;
    let (seen, are_whole) = seen_in(alloc, &question.uploads, &spans, world)?;
    let listed = list_tables(alloc, question, now, &words, &tables, &spans, &seen, world)?;
    world.write(&listed.text)?;
    world.flush()?;
    if listed.has_wrong_name {
        let name = Name(question.table);
        let _ = world.report_line(format_args!(
            "fault: {name}: the name of a class has a control character, which SQL does not take"
        ));
        return Ok(false);
    }
    Ok(are_whole && listed.succeeded)
}

/// Writes what the tables are understood as, and notes what their rules ignore and the layout
/// faults of the uploads; or only why a text is not a table or cannot follow those before it.
/// Changes of clocks are those after `now`, unless the words name a moment. The status is 0 if
/// nothing is wrong, else 1.
pub fn table_over<W: World + Counted>(
    alloc: Global,
    question: &TableQuestion<'_>,
    now: Timestamp,
    world: &mut W,
) -> u8 {
    ended_informing(show_tables(alloc, question, now, world), world)
}
