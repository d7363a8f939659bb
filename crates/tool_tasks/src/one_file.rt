//! Subcommands that load one file, and give what they prepare of it.
ghost use Rattle.frame.specs.Outcome.{rule_of};
ghost use Rattle.std.specs.Prelude.{◌≡◌, ◌∷◌};
ghost use Rattle.tool_tasks.specs.inside.Does.{Does};

use crate::counted::Counted;
use crate::loads::load_sized;
use crate::prepared::{Prepared, carry_out};
use crate::stops::Halt;
use std::alloc::Global;
use world::World;

/// A subcommand that loads one file, and gives what it prepares of it.
pub(crate) trait OneFile {
    ghost use Rattle.frame.specs.{Given.Given, Given.load_of, Outsides.Stops};
    ghost use Rattle.std.specs.Prelude.{ℕ, ◌∷◌, [], IfErr, IfOk, List};
    ghost use Rattle.tool_tasks.specs.inside.Prepared.{AreNamed, whole_of};
    ghost use Rattle.world.specs.Run.{Load};

    // The word of the file, and those of the files that are made.
    ghost word: { Self → List ℕ };

    ghost made: { Self → List (List ℕ) };

    // What is right, and what is wrong with what was loaded.
    ghost right: { Self → Given → ℕ → Type 0 };

    ghost wrong: { Self → List Load → Type 0 };

    /// What is given of the file of these bytes.
    fn prepare(&self, alloc: Global, bytes: &[u8]) -> Result<Prepared<'_>, Halt<'_>>
        ensures whole { IfOk result (λ prepared. right self.now
            (whole_of (load_of (word self.now) bytes.now ∷ []) prepared) prepared.status) }
        ensures named { IfOk result (AreNamed (word self.now ∷ made self.now)) }
        ensures stopped { IfErr result
            (λ halt. Stops (wrong self.now (load_of (word self.now) bytes.now ∷ [])) halt.0) };
}

/// Loads the file that the word names, of any size if `is_large` is set, and gives what is prepared
/// of it.
pub(crate) fn give_of_file<'a, T: OneFile, W: World + Counted>(
    alloc: Global,
    task: &'a T,
    word: &'a str,
    is_large: bool,
    world: &mut W,
) -> Result<u8, Halt<'a>>
    requires { T.word task.now ≡ word.now }
    ensures { Does (rule_of (T.right task.entry.now) (T.wrong task.entry.now)
        (T.word task.entry.now ∷ T.made task.entry.now)) (W.run world.old) (W.run world.new)
        result }
{
    let bytes = load_sized(world, word, is_large)?;
    let prepared = task.prepare(alloc, &bytes)?;
    carry_out(&prepared, world)
}
