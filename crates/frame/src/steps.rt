//! What a run does, step by step.
ghost use Rattle.std.specs.Prelude.{◌≡◌, ◌∷◌, [], ℕ, Contains, IfErr, IfOk, List, OnOk, Some};
ghost use Rattle.frame.specs.Given.{Adds, file_of, with_files, with_text};
ghost use Rattle.frame.specs.Outsides.{IsReported, Leaves, StopsIn};

use crate::outside::Outside;
use std::fmt::Display;
use std::io::Write;
use world::World;

/// Writes the piece to the output.
pub fn write<W: World>(piece: &[u8], world: &mut W) -> Result<(), Outside>
    ensures written { OnOk result
        (Adds (W.run world.old) (W.run world.new) (λ g. with_text g piece.now)) }
    ensures stopped { (words : List (List ℕ)) → IfErr result
        (StopsIn words (W.run world.old) (W.run world.new) (λ g. with_text g piece.now)) }
{
    match world.write(piece) {
        Ok(()) => Ok(()),
        Err(why) => Err(Outside::Unwritten(why)),
    }
}

/// Begins a file of these bytes, which gets its name when it is finished.
pub fn begin<W: World>(
    name: &str,
    bytes: &[u8],
    is_new: bool,
    world: &mut W,
) -> Result<W::File, Outside>
    ensures bytes { IfOk result (λ file. W.File.contents file ≡ Some bytes.now) }
    ensures unchanged { OnOk result (W.run world.new ≡ W.run world.old) }
    ensures stopped { (words : List (List ℕ)) → Contains words name.now → IfErr result (λ why.
        Leaves words why (W.run world.old) (W.run world.new)) }
{
    match world.begin(name, is_new) {
        Err(why) => Err(Outside::Unmade(why, false)),
        Ok(file) => {
            let mut file = file;
            match file.write_all(bytes) {
                Ok(()) => Ok(file),
                Err(_) => Err(Outside::Unmade(world.fail(name, file), true)),
            }
        }
    }
}

/// Gives the file its name.
pub fn finish<W: World>(name: &str, file: W::File, world: &mut W) -> Result<(), Outside>
    ensures made { (bytes : List ℕ) → W.File.contents file ≡ Some bytes → OnOk result
        (Adds (W.run world.old) (W.run world.new)
        (λ g. with_files g (file_of name.now bytes ∷ []))) }
    ensures stopped { (words : List (List ℕ)) → Contains words name.now → IfErr result (λ why.
        Leaves words why (W.run world.old) (W.run world.new)) }
{
    match world.finish(name, file) {
        Ok(()) => Ok(()),
        Err(why) => Err(Outside::Unmade(why, true)),
    }
}

/// Makes a file of these bytes. If it is to be new, no file has its name.
pub fn make<W: World>(name: &str, bytes: &[u8], is_new: bool, world: &mut W) -> Result<(), Outside>
    ensures made { OnOk result (Adds (W.run world.old) (W.run world.new)
        (λ g. with_files g (file_of name.now bytes.now ∷ []))) }
    ensures stopped { (words : List (List ℕ)) → Contains words name.now → IfErr result (λ why.
        Leaves words why (W.run world.old) (W.run world.new)) }
{
    match begin(name, bytes, is_new, world) {
        Err(why) => Err(why),
        Ok(file) => finish(name, file, world),
    }
}

/// Reports the line of what stopped a run, unless the reader of the output is gone.
pub fn report<W: World, D: Display + Drop>(why: Outside, line: D, world: &mut W)
    ensures { IsReported why (W.run world.old) (W.run world.new) }
{
    if why.is_quiet() {
        return;
    }
    let _ = world.report_line(line);
}
