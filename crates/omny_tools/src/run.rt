//! The whole program over the system, from the words to the status.

use crate::framed::Framed;
use crate::hint::{Failures, report_hints};
use crate::manner::form_of;
use crate::progress::Progress;
use crate::streams::Pieces;
use hints::{Overheard, Unwritten};
use jiff::Timestamp;
use program_manners::report_line;
use std::hash::RandomState;
use std::io;
use std::io::{BufWriter, IsTerminal, Write};
use std::marker::Sync;
use std::thread::Threads;
use text_forms::{Shaped, UPLOADS};
use tool_program::{Fault, main_over};

/// How many bytes are collected before they are written.
const WRITE_BYTES: usize = 65_536;

/// What a terminal shows beside a run, by the subcommand.
#[derive(Clone, Copy)]
struct Shows {
    /// Whether counts are shown also where the text goes to a terminal: it is made after them, or
    /// none is.
    counts: bool,
    /// Whether it is shown how much of the text is written. Then reports or ledgers are read.
    text: bool,
    /// Whether what is written goes out at once: no file is made, and nothing more is said, if an
    /// upload or corrections cannot be written.
    at_once: bool,
}

impl Shows {
    /// By the first word after the program's name.
    fn of(words: &[String]) -> Shows {
        let name = words.get(1).map_or("", |word| word.as_str());
        Shows {
            counts: name == "uploads" || name == "table" || name == "sort",
            text: name == "merge" || name == "corrections",
            at_once: name == "encode" || name == "corrections",
        }
    }
}

/// The whole program over the system: reads the words, the program's name first, does what they
/// request, and writes to `err` what is refused before they are read. Returns the status.
pub(crate) fn run<R: Threads + Sync, E: Write>(
    threads: &R,
    rt: &HostRuntime,
    words: &[String],
    err: &mut E,
) -> u8 {
    let form = match form_of(rt, words) {
        Ok(form) => form,
        Err(line) => {
            report_line(err, line);
            return 2;
        }
    };
    let shows = Shows::of(words);
    let Ok(seed) = RandomState::new(rt) else {
        report_line(err, Fault::NoMemory);
        return 1;
    };
    let out = Shaped::new(rt.alloc(), io::writer(rt), UPLOADS, form);
    let collected = if shows.at_once { 0 } else { WRITE_BYTES };
    let Ok(out) = BufWriter::with_capacity(rt.alloc(), collected, out) else {
        report_line(err, Fault::NoMemory);
        return 1;
    };
    let progress = Progress::new(rt, shows.counts || !rt.stdout().is_terminal(), shows.text);
    let asks = rt.stderr().is_terminal();
    let mut out = Unwritten::new(out);
    let mut err = Overheard::new(rt.stderr());
    let mut framed = Framed::new(rt, progress, asks, &mut out, &mut err);
    let status = main_over(
        threads,
        rt.alloc(),
        seed,
        Timestamp::now(rt).unwrap_or(Timestamp::UNIX_EPOCH),
        words,
        &Pieces::new(rt),
        &mut Pieces::new(rt),
        &mut framed,
    );
    let unmade = framed.take_unmade();
    drop(framed);
    if status == 1 || status == 3 {
        let failures = Failures {
            text: out.error(),
            unmade: &unmade,
        };
        report_hints(rt, words, err.said(), failures);
    }
    status
}
