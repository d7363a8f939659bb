//! A terminal line that says what a long run does, from the first second on, until it writes.

use crate::findings::Findings;
use crate::meter::Meters;
use crate::pace::Pace;
use crate::progress::{Sight, Steps};
use program_manners::{PACE_MS, QUIET_MS, TerminalLine};
use provenance::RunSums;
use std::io;
use std::sync::{Condvar, Mutex, Wait};
use std::time::{Clock, Duration, Instant};

#[derive(Drop)]
struct Line {
    shown: TerminalLine<io::Stderr>,
    is_over: bool,
}

impl Line {
    fn end(&mut self) {
        self.shown.clear();
        self.is_over = true;
    }
}

/// 2^64 - 1 if there are more.
fn millis_of(passed: Duration) -> u64 {
    u64::try_from(passed.as_millis()).unwrap_or(u64::MAX)
}

/// What a run and the thread that shows its line share.
#[derive(Drop)]
pub struct Ticker {
    pub(crate) steps: Mutex<Steps>,
    pub(crate) meters: Meters,
    pub(crate) findings: Mutex<Findings>,
    /// The sums of what is read and written, if they are requested.
    pub(crate) sums: Option<RunSums>,
    /// The line, which one thread at a time writes.
    line: Mutex<Line>,
    /// Rung when the line is taken away for good.
    ended: Condvar,
}

impl Ticker {
    /// A run that begins. No line is shown yet, nor ever if `err` is not a terminal. What is read
    /// and written is noted in the sums, if there are any.
    pub fn new(steps: Steps, err: io::Stderr, is_terminal: bool, sums: Option<RunSums>) -> Ticker {
        Ticker {
            steps: Mutex::new(steps),
            meters: Meters::new(),
            findings: Mutex::new(Findings {
                live: None,
                is_absent: false,
                unwritten: None,
            }),
            sums,
            line: Mutex::new(Line {
                shown: TerminalLine::new(err),
                is_over: !is_terminal,
            }),
            ended: Condvar::new(),
        }
    }

    /// Shows the line again and again, until it is taken away or the clock cannot be read.
    pub fn tick<R: Wait + Clock>(&self, rt: &R) {
        let Ok(started) = Instant::now(rt) else {
            return;
        };
        let mut pace = Pace::new();
        let mut pause_ms = QUIET_MS;
        for _ in rt.forever() {
            if self.is_over_after(rt, pause_ms) {
                return;
            }
            let Ok(passed) = started.elapsed(rt) else {
                return;
            };
            if passed.as_millis() >= u128::from(QUIET_MS) {
                self.show(rt, passed, &mut pace);
                pause_ms = PACE_MS;
            }
        }
    }

    /// Waits `pause_ms` milliseconds, or until the line is taken away for good: returns which.
    fn is_over_after<R: Wait + Clock>(&self, rt: &R, pause_ms: u64) -> bool {
        let line = self.line.lock(rt);
        if line.is_over {
            return true;
        }
        let pause = Duration::from_millis(pause_ms);
        let (line, _) = self.ended.wait_timeout(rt, line, pause);
        line.is_over
    }

    fn show<R: Wait>(&self, rt: &R, passed: Duration, pace: &mut Pace) {
        let sight = self.sight(rt);
        let left = pace.see(millis_of(passed), sight.charged());
        let seconds = passed.as_secs();
        let mut line = self.line.lock(rt);
        if !line.is_over {
            line.shown.show(format_args!("{sight}, {seconds} s{left}"));
        }
    }

    fn sight<R: Wait>(&self, rt: &R) -> Sight {
        let steps = *self.steps.lock(rt);
        Sight {
            steps,
            readings: self.meters.read(),
        }
    }

    /// What the run has found so far.
    pub fn findings<R: Wait>(&self, rt: &R) -> Findings {
        *self.findings.lock(rt)
    }

    /// The sums of what the run has read and written, when it is over.
    pub fn into_sums(self) -> Option<RunSums> {
        let Ticker {
            steps: _,
            meters: _,
            findings: _,
            sums,
            line: _,
            ended: _,
        } = self;
        sums
    }

    /// A load gave these bytes of the file of this name.
    pub(crate) fn note_load<R: Wait>(&self, rt: &R, name: &str, bytes: &[u8]) {
        if let Some(sums) = &self.sums {
            sums.note_load(rt, name, bytes);
        }
    }

    /// A file of this name, with these bytes, was loaded in its turn.
    pub(crate) fn end_load<R: Wait>(&self, rt: &R, name: &str, bytes: &[u8]) {
        self.steps.lock(rt).end_load();
        self.note_load(rt, name, bytes);
    }

    /// Takes the line away for good.
    pub fn end<R: Wait>(&self, rt: &R) {
        self.line.lock(rt).end();
        self.ended.notify_all();
    }
}
