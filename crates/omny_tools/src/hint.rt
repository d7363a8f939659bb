//! What a terminal shows about a fault: what to do, or why the system refuses a file. It is tested,
//! and nothing but safety is proved.

use hints::{Hint, Named, Said, hint_on_fault, kind_of_file, not_uploads};
use program_manners::report_line;
use std::alloc::Global;
use std::fs::File;
use std::hash::{BuildHasher, Hasher, RandomState};
use std::io::IsTerminal;
use std::{fs, io, slice};
use tool_words::{Task, read};
use world::folder_of;

/// After so many hints no more are shown.
const MOST_HINTS: usize = 3;

/// A file that was begun and not made.
#[derive(Drop)]
pub(crate) struct Unmade {
    name: String,
    error: io::Error,
}

impl Unmade {
    /// If memory allows.
    pub(crate) fn new(alloc: Global, name: &str, error: io::Error) -> Option<Unmade> {
        let name = String::from_str(alloc, name).ok()?;
        Some(Unmade { name, error })
    }
}

/// Why writes of a run failed.
#[derive(Clone, Copy)]
pub(crate) struct Failures<'a> {
    /// That of the text.
    pub(crate) text: Option<io::Error>,
    /// That of a new file.
    pub(crate) unmade: &'a Option<Unmade>,
}

impl<'a> Failures<'a> {
    fn of_file(&self, name: &str) -> Option<io::Error> {
        match self.unmade {
            Some(unmade) if unmade.name.as_str() == name => Some(unmade.error),
            _ => None,
        }
    }
}

/// Why the system makes no file of this name. An empty one is made beside it, and removed.
fn reason_of_unmade<'a>(rt: &HostRuntime, name: &'a str) -> Option<Hint<'a>> {
    let folder = folder_of(name);
    match fs::metadata(rt, folder) {
        Ok(about) if about.is_dir() => {}
        Ok(_) => return Some(Hint::NoFolder(folder)),
        Err(error) => return Some(Hint::Reason(folder, error)),
    }
    if let Ok(about) = fs::metadata(rt, name)
        && !about.is_file()
    {
        return Some(Hint::NotRegular(name));
    }
    let digits = RandomState::new(rt).ok()?.build_hasher().finish();
    let tried = format!(in rt.alloc(); "{name}.{digits:016x}").ok()?;
    match File::create_new(rt, tried.as_str()) {
        Ok(_) => {
            let _ = fs::remove_file(rt, tried.as_str());
            None
        }
        Err(error) => Some(Hint::Reason(name, error)),
    }
}

/// The hint on a line that names a CSV of `encode` first.
fn hint_on_csv<'a>(
    rt: &HostRuntime,
    line: &str,
    csv: &'a str,
    is_table: bool,
    words: &'a [String],
) -> Option<Hint<'a>> {
    let why = line.strip_prefix("fault: ")?.strip_prefix(csv)?;
    if let Some(kind) = kind_of_file(rt, csv) {
        return Some(Hint::Piped(kind, csv, words));
    }
    if is_table && why == " line 1: it is not token,validator,moment" {
        return Some(Hint::NoTapTable(csv));
    }
    None
}

/// The hint on a line by what the words request.
fn hint_on_task<'a>(
    rt: &HostRuntime,
    line: &str,
    task: &Task<'a>,
    words: &'a [String],
) -> Option<Hint<'a>> {
    match task {
        Task::Encode(csv) => hint_on_csv(rt, line, csv, true, words),
        Task::EncodeRows(csvs, _) => {
            for csv in csvs {
                if let Some(hint) = hint_on_csv(rt, line, csv, false, words) {
                    return Some(hint);
                }
            }
            None
        }
        Task::Look(words, _) => {
            let table = words.table?;
            let why = line.strip_prefix("fault: ")?.strip_prefix(table)?;
            if why.starts_with(": ") {
                Some(Hint::Table(table))
            } else {
                None
            }
        }
        _ => None,
    }
}

/// The hint on a line, unless it says what to do, or has names that are not shown as they are.
fn hint_on_line<'a>(rt: &HostRuntime, line: &'a str, failures: Failures<'a>) -> Option<Hint<'a>> {
    if line.contains("\\") {
        return None;
    }
    if let Some(name) = line.strip_prefix("fault: cannot make ") {
        return match failures.of_file(name) {
            Some(error) => Some(Hint::Reason(name, error)),
            None => reason_of_unmade(rt, name),
        };
    }
    if line == "fault: cannot write"
        && let Some(unmade) = failures.unmade
    {
        return Some(Hint::Reason(unmade.name.as_str(), unmade.error));
    }
    let named = Named {
        charges: false,
        table: None,
        error: failures.text,
    };
    match hint_on_fault(rt, rt.alloc(), line, named) {
        Some(Hint::Damaged(_)) | None => None,
        Some(hint) => Some(hint),
    }
}

/// The uploads that are read.
fn uploads_of<'t, 'a>(task: &'t Task<'a>) -> &'t [&'a str] {
    match task {
        Task::Decode(uploads) | Task::Uploads(uploads, _) | Task::Look(_, uploads) => uploads,
        Task::Table(question) => &question.uploads,
        Task::Sort(words) => &words.uploads,
        Task::Bounds(words) => &words.uploads,
        Task::ValidPrefix(words) => slice::from_ref(&words.upload),
        _ => &[],
    }
}

fn has_shown<'a>(
    rt: &HostRuntime,
    words: &'a [String],
    task: Option<&Task<'a>>,
    said: &'a Said,
    failures: Failures<'a>,
) -> bool {
    let mut err = rt.stderr();
    let mut shown = 0usize;
    for line in said.lines().split('\n') {
        if shown >= MOST_HINTS {
            break;
        }
        let hint = match (hint_on_line(rt, line, failures), task) {
            (Some(hint), _) => Some(hint),
            (None, Some(task)) => hint_on_task(rt, line, task, words),
            (None, None) => None,
        };
        if let Some(hint) = hint {
            report_line(&mut err, hint);
            shown = shown.saturating_add(1);
        }
    }
    shown > 0
}

/// Says on a terminal what to do about the faults that were reported, or about files that are no
/// uploads.
pub(crate) fn report_hints<'a>(
    rt: &HostRuntime,
    words: &'a [String],
    said: &'a Said,
    failures: Failures<'a>,
) {
    if !rt.stderr().is_terminal() {
        return;
    }
    let task = read(rt.alloc(), words).ok();
    if has_shown(rt, words, task.as_ref(), said, failures) || !said.is_silent() {
        return;
    }
    let Some(task) = task else {
        return;
    };
    if let Ok(hints) = not_uploads(rt, rt.alloc(), uploads_of(&task)) {
        let mut err = rt.stderr();
        for hint in &hints {
            report_line(&mut err, *hint);
        }
    }
}
