//! Fare tables that are loaded in the order of their words.
ghost use Rattle.program_manners.specs.TableLoads.{HasLoadedTables, load_of, with_word};
ghost use Rattle.program_manners.specs.TableViews.{names_of};
ghost use Rattle.program_manners.specs.TableWords.{TableNames, date_fault, wrong_word};
ghost use Rattle.program_manners.specs.TablesFaults.{StopsTables, outside_of};
ghost use Rattle.std.specs.Prelude.{◌≡◌, ◌++◌, ◌∷◌, [], ℕ, List, None, Some, IfErr, IfOk, OnOk};
ghost use Rattle.std.specs.Prelude.{false, map};
ghost use Rattle.world.specs.{Loads.IsRefused, Origins.with_loads, Run.Run};

use crate::following::{FollowLine, NextFault, table_after};
use crate::loading::FileFault;
use crate::table_line::NamedTableLine;
use crate::table_words::{TableWord, TableWords};
use fare_table::{FareTable, FollowFault, ReadFareTable, TableFault};
use frame::Outside;
use std::alloc::{AllocError, Global};
use world::Inputs;

/// Why fare tables were not loaded.
#[derive(Clone, Copy, Debug)]
pub enum TablesFault<'a> {
    /// The file of a table was not loaded.
    File(FileFault<'a>),
    /// The text of the only table is not a fare table.
    Table(TableFault),
    /// The text of one of several tables is not a fare table.
    NamedTable(NamedTableLine<'a>),
    /// A table cannot follow those before it.
    Follow(FollowLine<'a>),
    /// An allocation failed.
    NoMemory,
}

impl TablesFault<'_> {
    /// What stops the run.
    pub fn outside(&self) -> Outside
        ensures { result ≡ outside_of self.now }
    {
        match self {
            TablesFault::File(file) => Outside::Unread(file.fault),
            TablesFault::Table(_) | TablesFault::NamedTable(_) | TablesFault::Follow(_) => {
                Outside::Wrong
            }
            TablesFault::NoMemory => Outside::NoMemory,
        }
    }
}

impl From<AllocError> for TablesFault<'_> {
    ghost use Rattle.program_manners.specs.declared.table_loads.TablesFault.TheVariants.{NoMemory};

    ghost from_gives = { λ _ fault. fault ≡ NoMemory };

    fn from(_refused: AllocError) -> Self {
        TablesFault::NoMemory
    }
}

/// Fare tables, and the texts that they were read from, in the order of their words.
#[derive(Drop)]
pub struct Tables {
    /// The tables, each of which follows those before it.
    pub fares: FareTable,
    /// The bytes of each table's file.
    pub texts: Vec<Vec<u8>>,
}

/// All bytes of the file of this name.
pub fn load_named<'a, S: Inputs>(source: &mut S, name: &'a str) -> Result<Vec<u8>, FileFault<'a>>
    ensures ok { IfOk result (λ bytes. S.run source.new
        ≡ with_loads (S.run source.old) (load_of name.entry.now bytes.items ∷ [])) }
    ensures named { IfErr result (λ file. file.name.now ≡ name.entry.now) }
    ensures refused { IfErr result (λ file.
        IsRefused (S.run source.old) (S.run source.new) (Some name.entry.now) file.fault) }
{
    match source.load(name) {
        Ok(bytes) => Ok(bytes),
        Err(fault) => Err(FileFault { name, fault }),
    }
}

fn push(texts: &mut Vec<Vec<u8>>, text: Vec<u8>) -> Result<(), AllocError>
    ensures { OnOk result (texts.new.items ≡ texts.old.items ++ text ∷ []) }
{
    texts.push(text)?;
    Ok(())
}

fn load_next<'a, S: Inputs>(
    alloc: Global,
    mut tables: Tables,
    word: &'a str,
    source: &mut S,
) -> Result<Tables, TablesFault<'a>>
    requires { date_fault false word.now ≡ None }
    ensures ok { IfOk result (λ all. (start : Run) (words : TableNames)
        → HasLoadedTables start (S.run source.old) words (map (λ t. t.items) tables.texts.items)
        tables.fares → HasLoadedTables start (S.run source.new) (with_word words word.now)
        (map (λ t. t.items) all.texts.items) all.fares) }
    ensures right { IfErr result (λ fault. (start : Run) (words : TableNames)
        (trailing : List (List ℕ))
        → HasLoadedTables start (S.run source.old) words (map (λ t. t.items) tables.texts.items)
        tables.fares → StopsTables start (S.run source.new)
        (record words { later = words.later ++ word.now ∷ trailing }) fault) }
{
    let parts = TableWord::of(word);
    let Some(date) = parts.date else {
        unreachable!();
    };
    let name = parts.name;
    let text = match load_named(source, name) {
        Ok(text) => text,
        Err(file) => return Err(TablesFault::File(file)),
    };
    match table_after(alloc, tables.fares, date, &text) {
        Ok(fares) => {
            tables.fares = fares;
            push(&mut tables.texts, text)?;
            Ok(tables)
        }
        Err(NextFault::Table(TableFault::NoMemory)) => Err(TablesFault::NoMemory),
        Err(NextFault::Table(fault)) => {
            Err(TablesFault::NamedTable(NamedTableLine { name, fault }))
        }
        Err(NextFault::Follow(FollowFault::NoMemory)) => Err(TablesFault::NoMemory),
        Err(NextFault::Follow(fault)) => Err(TablesFault::Follow(FollowLine { word, fault })),
    }
}

fn load_first<'a, S: Inputs>(
    alloc: Global,
    words: &TableWords<'a>,
    source: &mut S,
) -> Result<Tables, TablesFault<'a>>
    ensures ok { IfOk result (λ tables. HasLoadedTables (S.run source.old) (S.run source.new)
        (record { first = words.now.first.now; later = [] }) (map (λ t. t.items) tables.texts.items)
        tables.fares) }
    ensures right { IfErr result
        (StopsTables (S.run source.old) (S.run source.new) (names_of words.now)) }
{
    let name = words.first;
    let text = match load_named(source, name) {
        Ok(text) => text,
        Err(file) => return Err(TablesFault::File(file)),
    };
    match FareTable::read(alloc, &text) {
        Ok(fares) => {
            let mut texts = Vec::new(alloc);
            push(&mut texts, text)?;
            Ok(Tables { fares, texts })
        }
        Err(TableFault::NoMemory) => Err(TablesFault::NoMemory),
        Err(fault) if words.later.is_empty() => Err(TablesFault::Table(fault)),
        Err(fault) => Err(TablesFault::NamedTable(NamedTableLine { name, fault })),
    }
}

/// Loads the tables of these words in order, each compared with those before it. An error is the
/// first of `File`, `Table` or `NamedTable`, and `Follow`, or `NoMemory` at any time.
pub fn load_tables<'a, S: Inputs>(
    alloc: Global,
    words: &TableWords<'a>,
    source: &mut S,
) -> Result<Tables, TablesFault<'a>>
    requires { wrong_word (names_of words.now) ≡ None }
    ensures ok { IfOk result (λ tables. HasLoadedTables (S.run source.old) (S.run source.new)
        (names_of words.now) (map (λ t. t.items) tables.texts.items) tables.fares) }
    ensures right { IfErr result
        (StopsTables (S.run source.old) (S.run source.new) (names_of words.now)) }
{
    let mut tables = load_first(alloc, words, source)?;
    for word in &words.later {
        tables = load_next(alloc, tables, word, source)?;
    }
    Ok(tables)
}
