//! `uploads`: what each upload has.

use crate::counted::Counted;
use crate::fault::Fault;
use crate::informs::{ended_informing, load_upload};
use crate::layout::Meaning;
use crate::names::Name;
use fare_texts::write_moment;
use std::alloc::{AllocError, Global};
use tap_views::{Facts, LayoutFault, facts_of};
use upload_checks::CommonTokens;
use world::World;

/// In milliseconds since 1970-01-01T00:00Z, or `-` if there is none.
pub(crate) fn push_moment(text: &mut String, moment: Option<u64>) -> Result<(), AllocError> {
    match moment {
        Some(moment) => write_moment(text, moment),
        None => text.push_str("-"),
    }
}

pub(crate) fn upload_text(
    alloc: Global,
    number: usize,
    word: &str,
    facts: &Facts,
) -> Result<String, AllocError> {
    let batches = facts.batches;
    let taps = facts.taps;
    let name = Name(word);
    let mut text = format!(in alloc; "upload {number} batches {batches} taps {taps} first ")?;
    push_moment(&mut text, facts.span.map(|span| span.first))?;
    text.push_str(" last ")?;
    push_moment(&mut text, facts.span.map(|span| span.last))?;
    write!(text, " {name}\n")?;
    if let Some((offset, fault)) = facts.fault {
        write!(text, "fault {number} batch {batches}")?;
        if let LayoutFault::Moment { index } = fault {
            write!(text, " tap {index}")?;
        }
        write!(text, " at {offset} {}\n", Meaning(fault))?;
    }
    Ok(text)
}

/// How many tokens each upload has, and how many of these another one has, too.
pub(crate) fn push_tokens(text: &mut String, tokens: &CommonTokens) -> Result<(), AllocError> {
    for (number, counts) in tokens.counts().iter().enumerate() {
        let (all, shared) = (counts.all, counts.shared);
        write!(text, "tokens {number} all {all} shared {shared}\n")?;
    }
    Ok(())
}

/// Writes the lines of each upload, then those of the tokens, if these are counted. Gives whether no
/// upload has a layout fault.
fn list_uploads<'a, W: World + Counted>(
    alloc: Global,
    words: &[&'a str],
    has_tokens: bool,
    world: &mut W,
) -> Result<bool, Fault<'a>> {
    let mut tokens = CommonTokens::new(alloc);
    let mut succeeded = true;
    for number in 0..words.len() {
        let upload = load_upload(words, number, world)?;
        let facts = facts_of(&upload);
        let text = upload_text(alloc, number, words[number], &facts)?;
        world.write(text.as_bytes())?;
        if has_tokens {
            tokens.add(&upload)?;
        }
        succeeded &= facts.fault.is_none();
    }
    let mut text = String::new(alloc);
    push_tokens(&mut text, &tokens)?;
    world.write(text.as_bytes())?;
    world.flush()?;
    Ok(succeeded)
}

/// Writes the lines of each upload, `-` being standard input; and if `has_tokens` is set, how many
/// different tokens each has and shares. A fault is reported. The status is 0 if all is written and
/// no upload has a layout fault, else 1.
pub fn uploads_over<W: World + Counted>(
    alloc: Global,
    words: Vec<&str>,
    has_tokens: bool,
    world: &mut W,
) -> u8 {
    ended_informing(list_uploads(alloc, &words, has_tokens, world), world)
}
