//! The file that says what a text was made by.

use hints::Hint;
use program_manners::{Escaping, report_line, words_of};
use provenance::{RunSums, made_by_text, make_new};
use std::fmt::Display;
use std::fs;
use std::io::IsTerminal;

fn report<D: Display + Drop>(rt: &HostRuntime, line: D) {
    let mut err = Escaping::new(rt.stderr());
    report_line(&mut err, line);
    err.finish();
}

/// Whether no file has this name. If one has, that is reported.
pub(crate) fn is_new(rt: &HostRuntime, name: &str) -> bool {
    if fs::symlink_metadata(rt, name).is_err() {
        return true;
    }
    report(rt, format_args!("fault: {name} is there already"));
    false
}

/// Makes the file of this name after a run whose text was written. On an error it was reported.
pub(crate) fn make(rt: &HostRuntime, name: &str, sums: RunSums) -> bool {
    let Ok(words) = words_of(rt) else {
        report(rt, "fault: out of memory");
        return false;
    };
    let sums = match sums.finish(rt) {
        Ok(sums) => sums,
        Err(fault) => {
            report(rt, fault);
            return false;
        }
    };
    let Ok(text) = made_by_text(rt.alloc(), "omny_cli", &words, &sums) else {
        report(rt, "fault: out of memory");
        return false;
    };
    match make_new(rt, name, text.as_bytes()) {
        Ok(()) => true,
        Err(error) => {
            report(rt, format_args!("fault: cannot make {name}"));
            if rt.stderr().is_terminal() {
                report(rt, Hint::Reason(name, error));
            }
            false
        }
    }
}
