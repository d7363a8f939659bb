//! Tables that follow others.

use crate::fault::Fault;
use fare_table::{FareTable, FollowFault, TableFault};
use program_manners::{Escaped, FollowLine, NextFault, TableWord, table_after};
use std::alloc::{AllocError, Global};
use table_report::TableText;
use tap_views::MomentSpan;
use tool_words::{LaterTable, TableQuestion};
use world::World;

fn note_next<'a, W: World>(
    alloc: Global,
    word: &'a str,
    fault: NextFault,
    world: &mut W,
) -> Result<(), Fault<'a>> {
    match fault {
        NextFault::Table(TableFault::NoMemory) | NextFault::Follow(FollowFault::NoMemory) => {
            return Err(Fault::NoMemory);
        }
        NextFault::Table(fault) => {
            let _ = world.report_line(Fault::FareTable(TableWord::of(word).name, fault));
        }
        NextFault::Follow(fault) => {
            let shown = Escaped(word);
            let word = format!(in alloc; "{shown}")?;
            let _ = world.report_line(FollowLine { word: &word, fault });
        }
    }
    Ok(())
}

/// Nothing if it does not follow, which is noted.
fn table_next<'a, W: World>(
    alloc: Global,
    fares: FareTable,
    later: &LaterTable<'a>,
    text: &[u8],
    world: &mut W,
) -> Result<Option<FareTable>, Fault<'a>> {
    let Some(date) = TableWord::of(later.word).date else {
        unreachable!();
    };
    match table_after(alloc, fares, date, text) {
        Ok(all) => Ok(Some(all)),
        Err(fault) => {
            note_next(alloc, later.word, fault, world)?;
            Ok(None)
        }
    }
}

/// The tables of these texts as one; nothing if one does not follow, which is noted.
pub(crate) fn joined<'a, W: World>(
    alloc: Global,
    question: &TableQuestion<'a>,
    tables: &[TableText<'_>],
    texts: &[Vec<u8>],
    world: &mut W,
) -> Result<Option<FareTable>, Fault<'a>> {
    let Some(first) = tables.first() else {
        return Ok(None);
    };
    let mut fares = first.fares(alloc)?;
    for (table, text) in question.later.iter().zip(texts.iter().skip(1)) {
        match table_next(alloc, fares, table, text, world)? {
            Some(all) => fares = all,
            None => return Ok(None),
        }
    }
    Ok(Some(fares))
}

pub(crate) fn spans_of(alloc: Global, fares: &FareTable) -> Result<Vec<MomentSpan>, AllocError> {
    let mut spans = Vec::new(alloc);
    let mut first = 0;
    for position in 0..fares.later_len() {
        let (from, _) = fares.later(position);
        let last = from.saturating_sub(1);
        spans.push(MomentSpan { first, last })?;
        first = from;
    }
    let last = u64::MAX;
    spans.push(MomentSpan { first, last })?;
    Ok(spans)
}
