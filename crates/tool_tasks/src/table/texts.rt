//! Texts of fare tables, and those that are none.

use crate::fault::Fault;
use crate::names::Name;
use std::alloc::Global;
use table_report::{Refusal, TableText};
use world::World;

/// Notes why a text is not a table.
fn note<'a, W: World>(word: &'a str, refusal: Refusal, world: &mut W) -> Result<(), Fault<'a>> {
    let name = Name(word);
    let _ = match refusal {
        Refusal::WrongValues(lines) => {
            let lines = lines.as_str();
            world.report_line(lines.strip_suffix("\n").unwrap_or(lines))
        }
        Refusal::Fault(fault) => world.report_line(Fault::FareTable(word, fault)),
        Refusal::NotUtf8 => world.report_line(format_args!("fault: {name} is not UTF-8")),
        Refusal::NotToml(line, column, error) => {
            let why = error.message();
            world.report_line(format_args!("fault: {name} line {line} column {column}: {why}"))
        }
        Refusal::NoMemory => return Err(Fault::NoMemory),
    };
    Ok(())
}

/// What the texts mean; nothing if one is not a table. Why each of these is none is noted.
pub(crate) fn read_texts<'a, 't, W: World>(
    alloc: Global,
    words: &[&'a str],
    texts: &'t [Vec<u8>],
    world: &mut W,
) -> Result<Option<Vec<TableText<'t>>>, Fault<'a>> {
    let mut tables = Vec::new(alloc);
    let mut succeeded = true;
    for (word, text) in words.iter().zip(texts.iter()) {
        let shown = format!(in alloc; "{}", Name(word))?;
        match TableText::read(alloc, &shown, text) {
            Ok(table) => tables.push(table)?,
            Err(refusal) => {
                note(word, refusal, world)?;
                succeeded = false;
            }
        }
    }
    if succeeded {
        Ok(Some(tables))
    } else {
        Ok(None)
    }
}
