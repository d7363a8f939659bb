//! `uploads --good-part`: lines of an upload, and a file of its batches before its layout fault.
ghost use Rattle.frame.specs.Outcome.{Ends};
ghost use Rattle.tool_tasks.specs.ValidPrefix.{valid_prefix_rule};
ghost use Rattle.tool_words.specs.Tasks.{valid_prefix_of};

use crate::counted::Counted;
use crate::fault::Fault;
use crate::one_file::{OneFile, give_of_file};
use crate::prepared::{NewFile, Prepared};
use crate::stops::{Halt, ended, status_of};
use crate::uploads::{push_tokens, upload_text};
use frame::Outside;
use std::alloc::Global;
use tap_views::{Facts, NoMemory, facts_of, valid_prefix};
use tool_words::ValidPrefixWords;
use upload_checks::CommonTokens;
use world::World;

fn lines_of(
    alloc: Global,
    words: &ValidPrefixWords<'_>,
    upload: &[u8],
    facts: &Facts,
) -> Result<String, NoMemory> {
    let mut text = upload_text(alloc, 0, words.upload, facts)?;
    if words.has_tokens {
        let mut tokens = CommonTokens::new(alloc);
        tokens.add(upload)?;
        push_tokens(&mut text, &tokens)?;
    }
    Ok(text)
}

impl OneFile for ValidPrefixWords<'_> {
    ghost use Rattle.std.specs.Prelude.{◌∷◌, []};
    ghost use Rattle.tool_tasks.specs.ValidPrefix.{HasValidPrefix};
    ghost use Rattle.tool_words.specs.Tasks.{valid_prefix_of};

    ghost word = { λ words. words.upload.now };

    ghost made = { λ words. words.out.now ∷ [] };

    ghost right = { λ words. HasValidPrefix (valid_prefix_of words) };

    ghost wrong = { λ words loads. ⊥ };

    fn prepare(&self, alloc: Global, upload: &[u8]) -> Result<Prepared<'_>, Halt<'_>> {
        let facts = facts_of(upload);
        let valid = valid_prefix(upload);
        let bytes = Vec::from_slice(alloc, valid)?;
        let file = NewFile {
            name: self.out,
            bytes,
            is_new: true,
            unmade: Fault::Write,
        };
        let Ok(text) = lines_of(alloc, self, upload, &facts) else {
            return Err(Halt(Outside::NoMemory, Fault::NoMemory));
        };
        Ok(Prepared {
            text: text.into_bytes(),
            first: None,
            upload: Some(file),
            held: None,
            note: String::new(alloc),
            status: status_of(facts.fault.is_none()),
        })
    }
}

/// Writes what the upload has, `-` being standard input: its lines, and if requested, how many
/// different tokens it has. Then makes the file of its batches before its first layout fault. A
/// fault is reported. The status is 0 if all is done and there is no layout fault, else 1.
#[tactic(auto, using(crate::proofs::Preparing::ends))]
pub fn valid_prefix_over<W: World + Counted>(
    alloc: Global,
    words: &ValidPrefixWords<'_>,
    world: &mut W,
) -> u8
    ensures { Ends (valid_prefix_rule (valid_prefix_of words.now)) (W.run world.old)
        (W.run world.new) result }
{
    let done = give_of_file(alloc, words, words.upload, false, world);
    ended(done, "", world)
}
