//! The program for auditors: checks a ledger under a fare table. It says whether the whole is the
//! ledger of legal histories, or which line is the first that no such ledger has there; and whether
//! its taps are those of some uploads, and a report its own.
#![tactic(auto)]

mod audit;
mod check;
mod fault;
mod input_words;
mod made_by;
mod options;
mod program;
mod report;
mod text;
mod traced;

use fault::Fault;
use frame::report;
use hints::{Named, Overheard, Said, Unwritten, end_words, hint_on_fault};
use input_words::input_words;
use made_by::compare;
use options::{Options, list_words, reads_input};
use program::main_over;
use program_manners::{
    Escaping, hold_streams, print, report_line, take_list, unread_words, words_of,
};
use std::io;
use std::io::{IsTerminal, Write};
use std::process::ExitCode;
use text_forms::{FINDINGS, Form, Shaped};
use world::{Stream, System, World};

/// The words with the name of the standard input for `-`, which at most one represents.
fn one_input<E: Write>(rt: &HostRuntime, words: &[String], err: &mut E) -> Result<Vec<String>, u8> {
    let Ok((words, replaced, lists)) = input_words(rt.alloc(), words) else {
        report_line(err, "fault: out of memory");
        return Err(1);
    };
    if replaced > 1 || (replaced > 0 && (lists > 0 || reads_input(rt.alloc(), &words))) {
        report_line(err, "error: - can be named only once");
        return Err(2);
    }
    Ok(words)
}

/// The words, with the name of the standard input for `-`, and with the names of the list that they
/// name. On an error it was reported, and the error is the status.
fn words_with_list<E: Write>(rt: &HostRuntime, err: &mut E) -> Result<Vec<String>, u8> {
    let words = match words_of(rt) {
        Ok(words) => words,
        Err(fault) => return Err(unread_words(&fault, err)),
    };
    // before a list is read
    one_input(rt, &words, err)?;
    let list = list_words(rt.alloc(), &words);
    let more = take_list(rt, &words, list, Some("uploads"), err)?;
    one_input(rt, &more.unwrap_or(words), err)
}

/// Writes what the comparison with the file of `--made-by` shows, if one is named. The status is 1
/// if there is a difference or a fault, which was reported.
fn compare_made_by<W: World>(rt: &HostRuntime, options: &Options<'_>, world: &mut W) -> u8 {
    let Some(name) = options.made_by else {
        return 0;
    };
    let fault = match compare(rt, options, name) {
        Ok((text, is_same)) => match print(text.as_bytes(), world) {
            Ok(()) => return u8::from(!is_same),
            Err(why) => Fault::Unwritten(why),
        },
        Err(fault) => fault,
    };
    report(fault.outside(), fault, world);
    1
}

/// Says on a terminal what to do about the fault that was reported.
fn report_hint(rt: &HostRuntime, options: &Options<'_>, said: &Said, error: Option<io::Error>) {
    let named = Named {
        charges: false,
        table: Some(options.table.first),
        error,
    };
    if rt.stderr().is_terminal()
        && let Some(line) = said.line()
        && let Some(hint) = hint_on_fault(rt, rt.alloc(), line, named)
    {
        report_line(&mut rt.stderr(), hint);
    }
}

/// The form of the findings that the words name; else the line of a usage error.
fn form_of(options: &Options<'_>) -> Result<Form, &'static str> {
    match Form::of(options.format.unwrap_or("text")) {
        None => Err("fault: --format is text, json or csv"),
        Some(form) if form != Form::Text && options.made_by.is_some() => {
            Err("fault: --format cannot be used with --made-by")
        }
        Some(form) => Ok(form),
    }
}

/// Runs the words, of which the list's names are arguments, and returns the status. On a terminal it
/// says that the ledger is waited for, and what to do about the fault that was reported.
fn run(rt: &HostRuntime, words: &[String], mut err: Escaping<io::Stderr>) -> u8 {
    let options = Options::read(rt.alloc(), words);
    let form = match &options {
        Ok(options) => form_of(options),
        Err(_) => Ok(Form::Text),
    };
    let form = match form {
        Ok(form) => form,
        Err(line) => {
            report_line(&mut err, line);
            err.finish();
            return 2;
        }
    };
    if let Ok(options) = &options
        && options.ledger.is_none()
        && rt.reader().is_terminal()
    {
        report_line(
            &mut rt.stderr(),
            "reading the ledger from the standard input",
        );
    }
    let out = Shaped::new(rt.alloc(), rt.stdout(), FINDINGS, form);
    let mut out = Unwritten::new(out);
    let mut err = Overheard::new(err);
    let mut status = main_over(
        rt,
        words,
        &mut Stream::new(),
        &mut System::new(rt, &mut out, &mut err),
    );
    if let Ok(options) = &options
        && status < 2
        && err.said().is_silent()
        && out.error().is_none()
    {
        let mut world = System::new(rt, &mut out, &mut err);
        status = status.max(compare_made_by(rt, options, &mut world));
    }
    let error = out.error();
    let (escaping, said) = err.into_parts();
    escaping.finish();
    if let Ok(options) = &options {
        report_hint(rt, options, &said, error);
    }
    status
}

fn main(rt: HostRuntime) -> ExitCode {
    let _held = hold_streams(&rt);
    let mut complaints = Overheard::new(Escaping::new(rt.stderr()));
    let words = words_with_list(&rt, &mut complaints);
    end_words(&rt, complaints, words.is_err());
    let status = match words {
        Ok(words) => run(&rt, &words, Escaping::new(rt.stderr())),
        Err(status) => status,
    };
    ExitCode::from(status)
}
