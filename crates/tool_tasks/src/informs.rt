//! Subcommands that only inform: no clause says what they print.
ghost use Rattle.std.specs.Prelude.{◌<◌, length};

use crate::counted::Counted;
use crate::fault::Fault;
use crate::loads::load;
use world::World;

/// The upload of this number. Shows how many are read.
pub(crate) fn load_upload<'a, I: Counted>(
    words: &[&'a str],
    number: usize,
    files: &mut I,
) -> Result<Vec<u8>, Fault<'a>>
    requires { number < length words.now }
{
    files.show_count(number, words.len());
    let upload = load(files, words[number])?;
    Ok(upload)
}

/// The status of what was printed and flushed. A fault is reported.
pub(crate) fn ended_informing<W: World>(done: Result<bool, Fault<'_>>, world: &mut W) -> u8 {
    match done {
        Ok(true) => 0,
        Ok(false) | Err(Fault::Closed) => 1,
        Err(fault) => {
            let _ = world.flush();
            let _ = world.report_line(fault);
            1
        }
    }
}
