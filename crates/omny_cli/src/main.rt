//! The program: `fare_program` over the words, the files, the standard input and the outputs of the
//! system. The names of a list become words. After the run notes on the standard error say what one
//! should know of its text. On a terminal a line says what a long run does, and another what to do
//! about a fault. The text may be written in another form.
#![tactic(auto)]

mod forms;
mod input_words;
mod made_by;
mod system;

use fare_program::{FileWords, Note, Output, list_words, unread_words, words_of};
use forms::form_of;
use hints::{Named, Overheard, Said, damaged, end_words, hint_on_fault};
use input_words::{INPUT_FILE, with_input_file};
use program_manners::{Escaping, hold_streams, report_line, take_list};
use provenance::RunSums;
use run_progress::{Findings, Hushing, Steps, Ticker, Watched};
use std::io::{IsTerminal, Stderr, Write};
use std::marker::Sync;
use std::process::ExitCode;
use std::random::RandomSource;
use std::sync::Wait;
use std::thread::Threads;
use std::time::Clock;
use std::{fs, io};
use system::run_system;
use text_forms::{Form, REPORT, STATEMENT, Shaped};
use world::{Recorded, System, WriteFault};

const INPUT_TWICE: &str = "error: - can be named only once";

/// The ticker of the run. On a terminal it first prints the note on the words, if there is one.
fn ticker_for(rt: &HostRuntime, words: &[String], sums: Option<RunSums>) -> Ticker {
    let is_terminal = rt.stderr().is_terminal();
    if is_terminal && let Ok(Some(note)) = Note::of(rt.alloc(), words) {
        report_line(&mut rt.stderr(), note);
    }
    Ticker::new(Steps::of(words), rt.stderr(), is_terminal, sums)
}

/// The words with the name of the standard input for `-`, which at most one represents.
fn one_input<E: Write>(rt: &HostRuntime, words: &[String], err: &mut E) -> Result<Vec<String>, u8> {
    match with_input_file(rt.alloc(), words) {
        Ok((words, 0 | 1)) => Ok(words),
        Ok(_) => {
            report_line(err, INPUT_TWICE);
            Err(2)
        }
        Err(_) => {
            report_line(err, "fault: out of memory");
            Err(1)
        }
    }
}

/// The words, with the name of the standard input for `-`, and with the names of the list that they
/// name. On an error the reason was reported.
fn words_with_list<E: Write>(rt: &HostRuntime, err: &mut E) -> Result<Vec<String>, u8> {
    let words = match words_of(rt) {
        Ok(words) => words,
        Err(fault) => return Err(unread_words(&fault, err)),
    };
    // before a list is read
    one_input(rt, &words, err)?;
    let list = list_words(rt.alloc(), &words);
    let more = take_list(rt, &words, list, None, err)?;
    one_input(rt, &more.unwrap_or(words), err)
}

fn report_findings(findings: &Findings, err: &mut Stderr) {
    if let Some(late) = findings.live {
        report_line(err, Note::FollowsFileOrder);
        match late {
            Some(0) => {}
            Some(taps) => report_line(err, Note::CameLate(taps)),
            None => report_line(err, Note::LateUncounted),
        }
    }
    if findings.is_absent {
        report_line(err, Note::UnknownToken);
    }
}

/// Says what to do about the fault that was reported, or about uploads that are damaged.
fn report_hints(rt: &HostRuntime, files: &FileWords<'_>, said: &Said, findings: &Findings) {
    let mut err = rt.stderr();
    let named = Named {
        charges: true,
        table: files.tables.first().copied(),
        error: findings.unwritten,
    };
    match said.line() {
        Some(line) if !said.is_silent() => {
            if let Some(hint) = hint_on_fault(rt, rt.alloc(), line, named) {
                report_line(&mut err, hint);
            }
        }
        _ => {
            if let Ok(hints) = damaged(rt, rt.alloc(), &files.uploads) {
                for hint in &hints {
                    report_line(&mut err, *hint);
                }
            }
        }
    }
}

/// It asks by the system's name: without `/dev/stdout` the standard output counts as no file.
fn writes_to_file(rt: &HostRuntime) -> bool {
    match fs::metadata(rt, "/dev/stdout") {
        Ok(about) => about.is_file(),
        Err(_) => false,
    }
}

/// Runs the words, of which these name files, in this form, and returns the status.
fn run<R: Threads + Wait + Clock + RandomSource + Sync + AllocGlobal>(
    handles: &R,
    rt: &HostRuntime,
    words: &[String],
    files: &FileWords<'_>,
    form: Form,
) -> u8 {
    if let Some(name) = files.made_by
        && !made_by::is_new(rt, name)
    {
        return 1;
    }
    let sums = files.made_by.map(|_| RunSums::new(rt.alloc()));
    let ticker = ticker_for(rt, words, sums);
    let err = Overheard::new(Escaping::new(rt.stderr()));
    let mut err = Hushing::new(handles, &ticker, err, false);
    let layout = if files.format.has_token {
        STATEMENT
    } else {
        REPORT
    };
    let out = Recorded::new(Shaped::new(rt.alloc(), rt.stdout(), layout, form));
    let mut out = Output::new(Hushing::of_text(handles, &ticker, out, writes_to_file(rt)));
    let system = System::new(rt, io::sink(), &mut err);
    let mut world = Watched::new(handles, &ticker, system);
    let status = run_system(handles, rt, words, &ticker, &mut world, &mut out);
    drop(world);
    let end = out.end();
    drop(out);
    let (escaping, said) = err.into_writer().into_parts();
    if end == Some(WriteFault::Closed) {
        // who read the text has enough of it
        return status;
    }
    escaping.finish();
    let findings = ticker.findings(handles);
    report_findings(&findings, &mut rt.stderr());
    if status == 1 && rt.stderr().is_terminal() {
        report_hints(rt, files, &said, &findings);
    }
    let is_written = status < 2 && said.is_silent();
    if let Some(name) = files.made_by
        && is_written
        && let Some(sums) = ticker.into_sums()
        && !made_by::make(rt, name, sums)
    {
        return 1;
    }
    status
}

fn main(rt: HostRuntime) -> ExitCode {
    let _held = hold_streams(&rt);
    let mut err = Overheard::new(Escaping::new(rt.stderr()));
    let words = words_with_list(&rt, &mut err);
    end_words(&rt, err, words.is_err());
    let words = match words {
        Ok(words) => words,
        Err(status) => return ExitCode::from(status),
    };
    let mut err = rt.stderr();
    let Ok(files) = FileWords::of(rt.alloc(), &words) else {
        report_line(&mut err, "fault: out of memory");
        return ExitCode::from(1);
    };
    if files.uploads.is_empty() && files.tables.contains(&INPUT_FILE) {
        report_line(&mut err, INPUT_TWICE);
        return ExitCode::from(2);
    }
    match form_of(&files.format, &mut err) {
        Some(form) => ExitCode::from(run(&rt, &rt, &words, &files, form)),
        None => ExitCode::from(2),
    }
}
