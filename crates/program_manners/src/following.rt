//! Fare tables that follow others from a date on.
ghost use Rattle.program_manners.specs.TableLoads.{FollowsFrom, IsNextFault};
ghost use Rattle.program_manners.specs.TableWords.{has_year, is_day};
ghost use Rattle.std.specs.Prelude.{◌≡◌, IfErr, IfOk, true};

use crate::table_words::{WrittenDate, day_of};
use fare_table::{FareTable, FollowFault, ReadFareTable, TableFault};
use std::alloc::Global;
use std::fmt;

/// Why the table of a text does not follow others.
#[derive(Clone, Copy, Debug)]
pub enum NextFault {
    /// The text is not a fare table.
    Table(TableFault),
    Follow(FollowFault),
}

/// The fault line of a word of `--table` whose table cannot follow others, without its line feed.
#[derive(Clone, Copy, Debug)]
pub struct FollowLine<'a> {
    /// The word, with its date.
    pub word: &'a str,
    pub fault: FollowFault,
}

impl fmt::Display for FollowLine<'_> {
    fn fmt<W: fmt::Write>(&self, f: &mut fmt::Formatter<W>) -> fmt::Result {
        let word = self.word;
        match self.fault {
            FollowFault::Date => write!(
                f,
                "fault: {word}: a table before it is valid from the same date or a later one"
            ),
            FollowFault::Zone => write!(f, "fault: {word}: it names another zone"),
            FollowFault::Modes => write!(f, "fault: {word}: it has other modes"),
            FollowFault::Caps => write!(f, "fault: {word}: it has other caps"),
            FollowFault::Followed => write!(f, "fault: {word}: a table follows it already"),
            FollowFault::NoMemory => f.write_str("fault: out of memory"),
        }
    }
}

/// The fault line of one of several tables with a class that no ledger has, without line feed.
#[derive(Clone, Copy, Debug)]
pub struct NamedClassLine<'a>(pub &'a str);

impl fmt::Display for NamedClassLine<'_> {
    fn fmt<W: fmt::Write>(&self, f: &mut fmt::Formatter<W>) -> fmt::Result {
        let name = self.0;
        write!(
            f,
            "fault: {name}: table has a class name that no ledger can have"
        )
    }
}

/// The fares, and after them the table of a text, valid from 00:00 of the date on: by the clocks of
/// the zone that the tables name, else in UTC. An error is `Table`, if the text is not a fare
/// table, or `Follow`: a date that begins before 1970-01-01T00:00Z is not after the first table's.
pub fn table_after(
    alloc: Global,
    fares: FareTable,
    date: WrittenDate,
    text: &[u8],
) -> Result<FareTable, NextFault>
    requires year { has_year date ≡ true }
    requires day { is_day date ≡ true }
    ensures follows { IfOk result (FollowsFrom fares date text.now) }
    ensures fault { IfErr result (IsNextFault fares date text.now) }
{
    let next = match FareTable::read(alloc, text) {
        Ok(next) => next,
        Err(fault) => return Err(NextFault::Table(fault)),
    };
    let Some(day) = day_of(date) else {
        unreachable!();
    };
    let Ok(clock) = fares.clock(alloc) else {
        unreachable!();
    };
    let Some(from) = clock.midnight(day) else {
        return Err(NextFault::Follow(FollowFault::Date));
    };
    match fares.followed_by(from, next) {
        Ok(all) => Ok(all),
        Err(fault) => Err(NextFault::Follow(fault)),
    }
}
