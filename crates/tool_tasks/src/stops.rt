//! What stops a subcommand, and its fault line.
ghost use Rattle.std.specs.Prelude.{◌≡◌, if◌then◌else◌};
ghost use Rattle.tool_tasks.specs.inside.Does.{IsEnded};

use crate::fault::Fault;
use frame::{Outside, report};
use std::alloc::AllocError;
use world::{MakeFault, World, WriteFault};

/// What stopped a run, and the line that says so.
#[derive(Drop)]
pub(crate) struct Halt<'a>(pub(crate) Outside, pub(crate) Fault<'a>);

impl From<AllocError> for Halt<'_> {
    ghost use Rattle.std.specs.Prelude.{◌≡◌};
    ghost use Rattle.frame.specs.declared.outside.Outside.TheVariants.{NoMemory};

    ghost from_gives = { λ _ halt. halt.0 ≡ NoMemory };

    fn from(_refused: AllocError) -> Self {
        Halt(Outside::NoMemory, Fault::NoMemory)
    }
}

impl<'a> From<Halt<'a>> for Fault<'a> {
    fn from(halt: Halt<'a>) -> Self {
        halt.1
    }
}

impl From<Outside> for Halt<'_> {
    ghost use Rattle.std.specs.Prelude.{◌≡◌};

    ghost from_gives = { λ why halt. halt.0 ≡ why };

    fn from(why: Outside) -> Self {
        Halt(why, line_of(why, "", Fault::Write))
    }
}

impl From<WriteFault> for Halt<'_> {
    ghost use Rattle.std.specs.Prelude.{◌≡◌};
    ghost use Rattle.frame.specs.declared.outside.Outside.TheVariants.{Unwritten};

    ghost from_gives = { λ why halt. halt.0 ≡ Unwritten why };

    fn from(why: WriteFault) -> Self {
        Halt(Outside::Unwritten(why), Fault::from(why))
    }
}

/// The line of what stopped a run. Of a file, this is its word, and the line if it is partial.
pub(crate) fn line_of<'a>(why: Outside, word: &'a str, partial: Fault<'a>) -> Fault<'a> {
    match why {
        Outside::Unread(why) => Fault::of_load(word, why),
        Outside::Unmade(MakeFault::NoMemory, _) => Fault::NoMemory,
        Outside::Unmade(_, true) => partial,
        Outside::Unmade(MakeFault::Exists, false) => Fault::Exists(word),
        Outside::Unmade(MakeFault::Unmade, false) => Fault::Unmade(word),
        Outside::Unwritten(why) => Fault::from(why),
        _ => Fault::NoMemory,
    }
}

/// The status of what was done.
pub(crate) fn status_of(succeeded: bool) -> u8
    ensures { result ≡ (if succeeded then 0 else 1) }
{
    if succeeded { 0 } else { 1 }
}

/// The status of what was done; or reports what stopped it, of a wrong file with more to say.
pub(crate) fn ended<W: World>(done: Result<u8, Halt<'_>>, more: &str, world: &mut W) -> u8
    ensures { IsEnded done.entry (W.run world.old) (W.run world.new) result }
{
    match done {
        Ok(status) => status,
        Err(Halt(why, line)) => {
            match why {
                Outside::Wrong | Outside::Untraced => {
                    report(why, format_args!("{line}{more}"), world)
                }
                _ => report(why, line, world),
            }
            1
        }
    }
}
