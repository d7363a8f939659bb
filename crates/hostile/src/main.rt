//! Hostile use of the service's libraries: each allocation refused in turn. `hostile CASE` makes
//! one case of calls, and looks at what a refused call left behind. Each case would catch a call
//! that always fails, or fails for good after a refusal. The status is 0 if all was answered, 3 if
//! an allocation failed and all promises hold, 4 if a run reported an upload as cut or undrawn, and
//! 1 if something else was found, which it names. `hostile/refuse` runs each case with its first
//! allocation refused, then with its second, and so on. Without an argument the program makes every
//! case.
#![tactic(auto)]

mod books;
mod cases;
mod sample;
mod service;
mod settled;
mod stop;
mod tables;

use cases::{CASES, SETTLED_CASES, made};
use std::env::Env;
use std::marker::Sync;
use std::process::ExitCode;
use std::random::RandomSource;
use std::sync::Wait;
use std::thread::Threads;
use std::{env, io};
use stop::{Case, Stop};

fn status_of(case: &Case) -> u8 {
    match case {
        Ok(()) => 0,
        Err(Stop::Refused) => 3,
        Err(Stop::Less) => 4,
        Err(Stop::Wrong(_)) => 1,
    }
}

fn word_of(case: &Case) -> &'static str {
    match case {
        Ok(()) => "answered",
        Err(Stop::Refused) => "refused",
        Err(Stop::Less) => "reported less",
        Err(Stop::Wrong(what)) => what,
    }
}

fn word<R: Env + AllocGlobal>(rt: &R) -> io::Result<Option<String>> {
    let mut words = env::args(rt)?;
    let _program = words.next();
    Ok(words.next())
}

/// Returns the status of the case, or 0 if it is not wanted.
fn status_if_wanted<R: Threads + Wait + RandomSource + Sync + Print + AllocGlobal>(
    rt: &R,
    wanted: &Option<String>,
    name: &str,
) -> u8 {
    if !wanted.as_ref().is_none_or(|wanted| wanted.as_str() == name) {
        return 0;
    }
    let case = made(rt, rt.alloc(), name);
    let _printed = println!(rt; "{name} {}", word_of(&case));
    status_of(&case)
}

/// Runs the case that the arguments name. Its status says how it ended.
fn main(rt: HostRuntime) -> ExitCode {
    let Ok(wanted) = word(&rt) else {
        return ExitCode::from(3);
    };
    let mut status = 0;
    for name in CASES {
        status = status.max(status_if_wanted(&rt, &wanted, name));
    }
    for name in SETTLED_CASES {
        status = status.max(status_if_wanted(&rt, &wanted, name));
    }
    ExitCode::from(status)
}
