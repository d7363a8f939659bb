//! The hint on a fault line.

use crate::damage::hint_on_file;
use crate::hint::Hint;
use crate::overheard::Overheard;
use program_manners::{Escaping, STANDARD_INPUT, report_line};
use std::alloc::Global;
use std::fs::Files;
use std::io::{IsTerminal, Read, Stderr};
use std::{fs, io};

/// What a fault line may speak of without its name.
#[derive(Clone, Copy)]
pub struct Named<'a> {
    /// Whether a bill or a list is made of uploads.
    pub charges: bool,
    /// The only fare table, if there is one.
    pub table: Option<&'a str>,
    /// Why the last write failed, or the last file could not be made, if one did.
    pub error: Option<io::Error>,
}

/// Why the system refuses to read the file; none if it does not now.
fn reason<'a, R: Files>(rt: &R, name: &'a str) -> Option<Hint<'a>> {
    if name == STANDARD_INPUT {
        return None;
    }
    match fs::metadata(rt, name) {
        // a pipe may wait forever
        Ok(about) if !about.is_file() && !about.is_dir() => return None,
        Ok(_) => {}
        Err(error) => return Some(Hint::Reason(name, error)),
    }
    let mut file = match fs::open(rt, name) {
        Ok(file) => file,
        Err(error) => return Some(Hint::Reason(name, error)),
    };
    match file.read(&mut [0u8; 1]) {
        Ok(_) => None,
        Err(error) => Some(Hint::Reason(name, error)),
    }
}

/// A fault of the form `NAME: table F9`, or `table F9` of the only table.
fn hint_on_table<'a>(fault: &'a str, named: Named<'a>) -> Option<Hint<'a>> {
    let (name, code) = match fault.strip_prefix("table F") {
        Some(code) => (named.table?, code),
        // the name may have such words, too
        None => fault.rsplit_once(": table F")?,
    };
    Some(if code == "9" {
        Hint::Zone(name)
    } else {
        Hint::Table(name)
    })
}

/// The name in a fault of the form `NAME at OFFSET ..`: what is before the last ` at ` and a number.
fn name_before_offset(fault: &str) -> Option<&str> {
    let mut rest = fault;
    for _ in 0..fault.len() {
        let (name, offset) = rest.rsplit_once(" at ")?;
        if matches!(offset.as_bytes().first(), Some(b'0'..=b'9')) {
            return Some(name);
        }
        rest = name;
    }
    None
}

fn hint_on_layout<'a, R: Files>(rt: &R, alloc: Global, fault: &'a str) -> Option<Hint<'a>> {
    hint_on_file(rt, alloc, name_before_offset(fault)?)
}

/// The hint on a fault line, which the system is asked about once more.
pub fn hint_on_fault<'a, R: Files>(
    rt: &R,
    alloc: Global,
    line: &'a str,
    named: Named<'a>,
) -> Option<Hint<'a>> {
    let fault = line.strip_prefix("fault: ")?;
    if let Some(name) = fault.strip_prefix("cannot read ") {
        return reason(rt, name);
    }
    if let Some(name) = fault.strip_prefix("cannot make ") {
        return Some(Hint::Reason(name, named.error?));
    }
    if fault == "cannot write" {
        return Some(Hint::Unwritten(named.error?));
    }
    if fault == "too many uploads" {
        return Some(Hint::TooMany);
    }
    if named.charges && fault == "out of memory" {
        return Some(Hint::NoMemory);
    }
    if named.charges && fault.ends_with(" is too long") {
        return Some(Hint::TooLong);
    }
    if let Some((name, tap)) = fault.rsplit_once(": tap ")
        && tap.ends_with(" is out of order")
    {
        if name == STANDARD_INPUT || name == "/dev/stdin" {
            return None;
        }
        return Some(Hint::Unsorted(name));
    }
    if let Some(hint) = hint_on_table(fault, named) {
        return Some(hint);
    }
    hint_on_layout(rt, alloc, fault)
}

/// Writes what was reported of the words. If they are wrong, a terminal shows what to do about the
/// fault of a list of files.
pub fn end_words(rt: &HostRuntime, err: Overheard<Escaping<Stderr>>, are_wrong: bool) {
    let (escaping, said) = err.into_parts();
    escaping.finish();
    let named = Named {
        charges: false,
        table: None,
        error: None,
    };
    if are_wrong
        && rt.stderr().is_terminal()
        && let Some(line) = said.line()
        && let Some(hint) = hint_on_fault(rt, rt.alloc(), line, named)
    {
        report_line(&mut rt.stderr(), hint);
    }
}
