//! What clap answers if there is nothing to run.
ghost use Rattle.clap.specs.Words.{kind_of};
ghost use Rattle.program_manners.specs.{Answers.IsPrinted, Answers.IsRejected, Words.IsRequest};
ghost use Rattle.std.specs.Prelude.{◌≡◌, OnOk};
ghost use Rattle.world.specs.Writes.{IsSaid};

use crate::escaped::escaped_lines;
use clap::Error;
use clap::error::ErrorKind;
use frame::{Outside, report};
use std::alloc::Global;
use world::{World, WriteFault};

fn report_memory<W: World>(world: &mut W) -> u8
    ensures status { result ≡ 1 }
    ensures said { IsSaid (W.run world.old) (W.run world.new) }
{
    let _ = world.report_line("fault: out of memory");
    1
}

/// Writes the text and flushes the output.
pub fn print<W: World>(text: &[u8], world: &mut W) -> Result<(), WriteFault>
    ensures { OnOk result (IsPrinted (W.run world.old) (W.run world.new)) }
{
    match world.write(text) {
        Ok(()) => world.flush(),
        Err(why) => Err(why),
    }
}

/// Shows help and the version on the output, a usage error on the standard error. The status is 0
/// for help and version, 2 for a usage error, 1 if an allocation or a write failed.
pub fn show_answer<W: World>(alloc: Global, error: &Error, world: &mut W) -> u8
    ensures help { result ≡ 0
        → IsRequest (kind_of error.now) × IsPrinted (W.run world.old) (W.run world.new) }
    ensures refused { ¬ IsRequest (kind_of error.now)
        → IsRejected (W.run world.old) (W.run world.new) result }
    ensures memory { kind_of error.now ≡ ErrorKind.OutOfMemory
        → (result ≡ 1) × IsSaid (W.run world.old) (W.run world.new) }
{
    if error.kind() == ErrorKind::OutOfMemory {
        return report_memory(world);
    }
    let Ok(text) = format!(in alloc; "{error}") else {
        return report_memory(world);
    };
    match error.kind() {
        ErrorKind::DisplayHelp | ErrorKind::DisplayVersion => {
            match print(text.as_bytes(), world) {
                Ok(()) => 0,
                Err(why) => {
                    report(Outside::Unwritten(why), "fault: cannot write", world);
                    1
                }
            }
        }
        _ => match escaped_lines(alloc, &text) {
            Ok(lines) => {
                world.say(lines.as_bytes());
                2
            }
            Err(_) => report_memory(world),
        },
    }
}
