//! The program: turns tables of taps into uploads and back, and prints what uploads and fare tables
//! have.
#![tactic(auto)]

mod framed;
mod hint;
mod manner;
mod progress;
mod run;
mod streams;
mod whole;

use hints::{Overheard, end_words};
use program_manners::{Escaping, hold_streams, take_list, unread_words, words_of};
use run::run;
use std::io::Write;
use std::process::ExitCode;
use tool_words::list_words;

/// The words, with the names of the list that they name. On an error the reason was reported.
fn words_with_list<E: Write>(rt: &HostRuntime, err: &mut E) -> Result<Vec<String>, u8> {
    let words = match words_of(rt) {
        Ok(words) => words,
        Err(fault) => return Err(unread_words(&fault, err)),
    };
    let list = list_words(rt.alloc(), &words);
    let more = take_list(rt, &words, list, None, err)?;
    Ok(more.unwrap_or(words))
}

fn main(rt: HostRuntime) -> ExitCode {
    let _held = hold_streams(&rt);
    let mut err = Overheard::new(Escaping::new(rt.stderr()));
    let words = words_with_list(&rt, &mut err);
    end_words(&rt, err, words.is_err());
    let status = match words {
        Ok(words) => run(&rt, &rt, &words, &mut rt.stderr()),
        Err(status) => status,
    };
    ExitCode::from(status)
}
