//! How far a run is, as far as that is seen from its reads and its meters.

use crate::meter::{Reading, Readings};
use std::fmt;
use std::fmt::{Display, Formatter, Write};

/// What a run does.
#[derive(Clone, Copy, Debug, PartialEq, Eq)]
enum Stage {
    /// It reads the arguments, or looks which files there are.
    Starting,
    Table,
    /// It reads files ahead. A live run charges each as soon as it is read.
    Ahead,
    /// It reads files in their turns.
    Files,
    Input,
    /// It has read all that it needs.
    Loaded,
}

const MIB: u64 = 1_048_576;

/// From this many taps on millions are shown, and thousands below.
const MANY_TAPS: u64 = 10_000_000;

const THOUSAND: u64 = 1_000;

const MILLION: u64 = 1_000_000;

/// What a run has done so far, as far as its reads tell.
#[derive(Clone, Copy, Debug)]
pub struct Steps {
    stage: Stage,
    /// Whether a listing is requested.
    asks_for_list: bool,
    /// Whether sorted files are read once to be checked, before they are charged.
    checks_first: bool,
    has_table: bool,
    found: usize,
    knows_all: bool,
    /// How many files were read before their turns.
    ahead: usize,
    /// How many files were read when their turns came, or before.
    loaded: usize,
}

impl Steps {
    /// A run that begins, with these arguments.
    pub fn of(words: &[String]) -> Steps {
        Steps {
            stage: Stage::Starting,
            asks_for_list: asks_for(words, "--list"),
            checks_first: asks_for(words, "--ledger") && !asks_for(words, "--token"),
            has_table: false,
            found: 0,
            knows_all: true,
            ahead: 0,
            loaded: 0,
        }
    }

    /// Looked at the next file, up to the first that may not be read ahead.
    pub(crate) fn look(&mut self, may_be_read_ahead: bool) {
        if may_be_read_ahead {
            self.found = self.found.saturating_add(1);
        } else {
            self.knows_all = false;
        }
    }

    pub(crate) fn begin_prefetch(&mut self) {
        self.stage = Stage::Ahead;
    }

    /// Has opened a sorted file, which is read while it is charged.
    pub(crate) fn open(&mut self) {
        self.stage = Stage::Loaded;
    }

    pub(crate) fn end_prefetch(&mut self) {
        self.ahead = self.ahead.saturating_add(1);
    }

    /// Has read one more file while taps are settled. After the last one they are charged.
    pub(crate) fn end_settled(&mut self) {
        self.end_prefetch();
        if self.knows_all && self.ahead >= self.found {
            self.stage = Stage::Loaded;
        }
    }

    /// Begins to read files in their turns. `ahead` were read before.
    pub(crate) fn begin_turns(&mut self, ahead: usize) {
        self.stage = Stage::Files;
        self.ahead = ahead;
    }

    /// Begins to read a file: the table, if it comes before those that have turns.
    pub(crate) fn begin_load(&mut self) {
        if self.stage == Stage::Starting {
            self.stage = Stage::Table;
        }
    }

    pub(crate) fn end_load(&mut self) {
        if self.stage == Stage::Table {
            self.has_table = true;
            self.stage = Stage::Starting;
            return;
        }
        self.loaded = self.loaded.saturating_add(1);
        if self.knows_all && self.loaded >= self.found {
            self.stage = Stage::Loaded;
        }
    }

    pub(crate) fn begin_input(&mut self) {
        self.stage = Stage::Input;
    }

    pub(crate) fn end_input(&mut self) {
        self.stage = Stage::Loaded;
    }

    fn read(&self) -> usize {
        self.ahead.max(self.loaded)
    }
}

/// Whether the arguments ask for this, alone or with a value after `=`. Those after `--` are files.
fn asks_for(words: &[String], option: &str) -> bool {
    for word in words {
        if word.as_str() == "--" {
            return false;
        }
        let name = match word.as_str().split_once('=') {
            Some((name, _)) => name,
            None => word.as_str(),
        };
        if name == option {
            return true;
        }
    }
    false
}

/// What is seen of a run at a moment. Shown, it is what the run does then.
#[derive(Clone, Copy, Debug)]
pub(crate) struct Sight {
    pub(crate) steps: Steps,
    pub(crate) readings: Readings,
}

/// Work whose amount is known.
#[derive(Clone, Copy, Debug, PartialEq, Eq)]
enum Work {
    Checking(Reading),
    /// Bytes of uploads or of sorted files are charged.
    Bytes(Reading),
    Taps(Reading),
}

impl Sight {
    fn work(&self) -> Option<Work> {
        let Readings {
            taps,
            posted,
            sorted,
            written: _,
        } = self.readings;
        if taps.goes_on() {
            return Some(Work::Taps(taps));
        }
        if posted.goes_on() {
            return Some(Work::Bytes(posted));
        }
        if sorted.goes_on() && self.steps.checks_first {
            return Some(Work::Checking(sorted));
        }
        let charged = if self.steps.checks_first {
            sorted.again()
        } else {
            sorted
        };
        if charged.goes_on() {
            return Some(Work::Bytes(charged));
        }
        None
    }

    /// What a run does that has read all that it needs, or goes on to read sorted files.
    fn fmt_loaded<W: Write>(&self, f: &mut Formatter<W>) -> fmt::Result {
        if let Some(work) = self.work() {
            return work.fmt(f);
        }
        let written = self.readings.written.done;
        if written > 0 {
            return write!(f, "{} MiB written", written / MIB);
        }
        if self.steps.asks_for_list || !self.steps.has_table {
            return f.write_str("listing");
        }
        f.write_str("charging")
    }

    /// What is charged and of how much, if that is known.
    pub(crate) fn charged(&self) -> Option<Reading> {
        if !matches!(self.steps.stage, Stage::Ahead | Stage::Loaded) {
            return None;
        }
        match self.work() {
            Some(Work::Bytes(reading) | Work::Taps(reading)) => Some(reading),
            _ => None,
        }
    }
}

impl Display for Work {
    fn fmt<W: Write>(&self, f: &mut Formatter<W>) -> fmt::Result {
        match self {
            Work::Checking(read) => {
                write!(f, "checking {} of {} MiB", read.done / MIB, read.all / MIB)
            }
            Work::Bytes(charged) => {
                write!(
                    f,
                    "charging {} of {} MiB",
                    charged.done / MIB,
                    charged.all / MIB
                )
            }
            Work::Taps(charged) => {
                let (unit, name) = if charged.all < MANY_TAPS {
                    (THOUSAND, "thousand")
                } else {
                    (MILLION, "million")
                };
                let (done, all) = (charged.done / unit, charged.all / unit);
                write!(f, "charging {done} of {all} {name} taps")
            }
        }
    }
}

impl Display for Sight {
    fn fmt<W: Write>(&self, f: &mut Formatter<W>) -> fmt::Result {
        let steps = &self.steps;
        match steps.stage {
            Stage::Starting => f.write_str("starting"),
            Stage::Table => f.write_str("reading the table"),
            Stage::Ahead if self.readings.posted.goes_on() => self.fmt_loaded(f),
            Stage::Ahead | Stage::Files if steps.knows_all => {
                write!(f, "{} of {} files read", steps.read(), steps.found)
            }
            Stage::Ahead | Stage::Files => write!(f, "{} files read", steps.read()),
            Stage::Input => f.write_str("reading the standard input"),
            Stage::Loaded => self.fmt_loaded(f),
        }
    }
}
