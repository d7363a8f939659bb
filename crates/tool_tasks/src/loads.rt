//! Files that a task loads, by their words.
ghost use Rattle.frame.specs.{Names.file_named, Outsides.Leaves};
ghost use Rattle.std.specs.Prelude.{◌≡◌, ℕ, Contains, IfErr, IfOk, List, map};
ghost use Rattle.tool_tasks.specs.inside.Loads.{LoadsAll, StopsLoading};
ghost use Rattle.world.specs.{Loads.IsRefused, Run.with_load};

use crate::counted::Counted;
use crate::fault::Fault;
use crate::placed::push;
use crate::stops::Halt;
use frame::{Outside, file_of};
use std::alloc::Global;
use world::{Inputs, LoadFault};

/// All bytes of the file that the word names, `-` being standard input.
pub(crate) fn load_word<I: Inputs>(files: &mut I, word: &str) -> Result<Vec<u8>, LoadFault>
    ensures loaded { IfOk result (λ bytes.
        I.run files.new ≡ with_load (I.run files.old) (file_named word.now) bytes.items) }
    ensures refused { IfErr result
        (IsRefused (I.run files.old) (I.run files.new) (file_named word.now)) }
{
    match file_of(word) {
        Some(name) => files.load(name),
        None => files.input(),
    }
}

/// The same.
pub(crate) fn load<'a, I: Inputs>(files: &mut I, word: &'a str) -> Result<Vec<u8>, Halt<'a>>
    ensures loaded { IfOk result (λ bytes. I.run files.new
        ≡ with_load (I.run files.old) (file_named word.entry.now) bytes.items) }
    ensures stopped { (words : List (List ℕ)) → Contains words word.entry.now → IfErr result
        (λ halt. Leaves words halt.0 (I.run files.old) (I.run files.new)) }
{
    match load_word(files, word) {
        Ok(bytes) => Ok(bytes),
        Err(why) => Err(Halt(Outside::Unread(why), Fault::of_load(word, why))),
    }
}

/// The same of a file of any size if `is_large` is set.
pub(crate) fn load_sized<'a, I: Counted>(
    files: &mut I,
    word: &'a str,
    is_large: bool,
) -> Result<Vec<u8>, Halt<'a>>
    ensures loaded { IfOk result (λ bytes. I.run files.new
        ≡ with_load (I.run files.old) (file_named word.entry.now) bytes.items) }
    ensures stopped { (words : List (List ℕ)) → Contains words word.entry.now → IfErr result
        (λ halt. Leaves words halt.0 (I.run files.old) (I.run files.new)) }
{
    if !is_large {
        return load(files, word);
    }
    match files.load_whole(file_of(word)) {
        Ok(bytes) => Ok(bytes),
        Err(why) => Err(Halt(Outside::Unread(why), Fault::of_load(word, why))),
    }
}

/// The same. Shows how many are read.
fn load_one<'a, I: Counted>(
    word: &'a str,
    number: usize,
    count: usize,
    is_large: bool,
    files: &mut I,
) -> Result<Vec<u8>, Halt<'a>>
    ensures loaded { IfOk result (λ bytes. I.run files.new
        ≡ with_load (I.run files.old) (file_named word.entry.now) bytes.items) }
    ensures stopped { (words : List (List ℕ)) → Contains words word.entry.now → IfErr result
        (λ halt. Leaves words halt.0 (I.run files.old) (I.run files.new)) }
{
    if is_large {
        return load_sized(files, word, true);
    }
    files.show_count(number, count);
    load(files, word)
}

/// All bytes of the files that the words name, one after the other.
pub(crate) fn load_all<'a, I: Counted>(
    alloc: Global,
    words: &[&'a str],
    are_large: bool,
    files: &mut I,
) -> Result<Vec<Vec<u8>>, Halt<'a>>
    ensures loaded { IfOk result (λ texts. LoadsAll (map (λ w. w.now) words.now) (I.run files.old)
        (I.run files.new) (map (λ text. text.items) texts.items)) }
    ensures stopped { (names : List (List ℕ)) → ((word : List ℕ)
        → Contains (map (λ w. w.now) words.now) word → Contains names word) → IfErr result
        (λ halt. StopsLoading names halt.0 (I.run files.old) (I.run files.new)) }
{
    let mut texts = Vec::new(alloc);
    for number in 0..words.len() {
        let text = load_one(words[number], number, words.len(), are_large, files)?;
        push(&mut texts, text)?;
    }
    Ok(texts)
}
