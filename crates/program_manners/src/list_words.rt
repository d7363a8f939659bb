//! What the words say of a list of files, and the words with the names of its files.

use crate::complaints::report_line;
use crate::file_list::{ListFault, names_of_list};
use crate::listed_words::with_names;
use crate::loading::{FileFault, STANDARD_INPUT, load_file};
use crate::words::flag_in;
use clap::error::ErrorKind;
use clap::{ArgMatches, Error};
use std::fmt;
use std::fs::Files;
use std::io::{Input, Write};
use world::{LoadFault, Trace, load_input};

const INPUT_WORD: &str = "-";

/// What the words say of a list of files.
#[derive(Clone, Copy, Debug)]
pub struct ListWords<'a> {
    /// The name of the list; `-` represents standard input.
    pub name: &'a str,
    /// The byte that ends each name: a line feed, or NUL, so that a name may have line feeds.
    end: u8,
}

impl<'a> ListWords<'a> {
    /// What the words say of a list, if they name one. An error is `NullAlone`.
    pub fn of(matches: &ArgMatches<'a>) -> Result<Option<ListWords<'a>>, ListFault> {
        let end = if flag_in(matches, "null") { 0 } else { b'\n' };
        match matches.get_str("files-from") {
            Some(name) => Ok(Some(ListWords { name, end })),
            None if end == 0 => Err(ListFault::NullAlone),
            None => Ok(None),
        }
    }

    /// What words that clap does not read say of a list: nothing. Memory may be refused.
    pub fn unread(error: &Error) -> Result<Option<ListWords<'a>>, ListFault> {
        match error.kind() {
            ErrorKind::OutOfMemory => Err(ListFault::File(LoadFault::NoMemory)),
            _ => Ok(None),
        }
    }

    fn add_names<R: Files + Input + AllocGlobal>(
        &self,
        rt: &R,
        words: &[String],
        option: Option<&str>,
    ) -> Result<Vec<String>, ListFault> {
        let text = if self.name == INPUT_WORD {
            load_input(rt.alloc(), &mut rt.reader(), &mut Trace::new())?
        } else {
            load_file(rt, rt.alloc(), self.name)?
        };
        let names = names_of_list(rt.alloc(), &text, self.end)?;
        Ok(with_names(rt.alloc(), words, option, &names)?)
    }
}

/// A list of files that gives no names. Its `Display` is the fault line without its line feed.
#[derive(Clone, Copy)]
struct ListLine<'a> {
    list: ListWords<'a>,
    fault: ListFault,
}

impl fmt::Display for ListLine<'_> {
    fn fmt<W: fmt::Write>(&self, f: &mut fmt::Formatter<W>) -> fmt::Result {
        let name = match self.list.name {
            INPUT_WORD => STANDARD_INPUT,
            name => name,
        };
        match self.fault {
            ListFault::NullAlone => f.write_str("error: -0 needs --files-from"),
            ListFault::InputTwice => f.write_str("error: - can be named only once"),
            ListFault::File(fault) => FileFault { name, fault }.fmt(f),
            ListFault::NoNames => write!(f, "fault: {name} has no names"),
            ListFault::Name(number, why) => {
                let piece = if self.list.end == 0 { "name" } else { "line" };
                write!(f, "fault: {name} {piece} {number}: {why}")
            }
        }
    }
}

/// The words with the names of the list, if they name one: as values of this option or else as
/// positional arguments. On an error the reason was reported, and the error is the status. No
/// contract says which words these are.
pub fn take_list<'a, R: Files + Input + AllocGlobal, E: Write>(
    rt: &R,
    words: &[String],
    list: Result<Option<ListWords<'a>>, ListFault>,
    option: Option<&str>,
    err: &mut E,
) -> Result<Option<Vec<String>>, u8> {
    let unnamed = ListWords {
        name: "",
        end: b'\n',
    };
    let (list, fault) = match list {
        Ok(None) => return Ok(None),
        Ok(Some(list)) => match list.add_names(rt, words, option) {
            Ok(all) => return Ok(Some(all)),
            Err(fault) => (list, fault),
        },
        Err(fault) => (unnamed, fault),
    };
    report_line(err, ListLine { list, fault });
    match fault {
        ListFault::NullAlone | ListFault::InputTwice => Err(2),
        _ => Err(1),
    }
}
