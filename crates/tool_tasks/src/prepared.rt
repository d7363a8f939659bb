//! What a subcommand prepared, before any of it is done.
ghost use Rattle.frame.specs.{Given.Adds, Given.with_files, Outsides.Leaves, Outsides.StopsIn};
ghost use Rattle.std.specs.Prelude.{◌≡◌, ℕ, List, IfErr, OnOk, option_map};
ghost use Rattle.tool_tasks.specs.Files.{named_files};
ghost use Rattle.tool_tasks.specs.inside.Prepared.{AreNamed, Carries, IsPartialIn, IsKnown};
ghost use Rattle.tool_tasks.specs.inside.Prepared.{IsNamedIn, partial_files, files_in, given_of};
ghost use Rattle.tool_tasks.specs.inside.Prepared.{with_prepared};
ghost use Rattle.world.specs.{Origins.with_loads, Run.Load, Run.Run};

use crate::fault::Fault;
use crate::stops::{Halt, line_of};
use frame::{begin, finish, make, write};
use world::World;

/// A file that is to be made; one that is not to be new replaces another.
#[derive(Drop)]
pub(crate) struct NewFile<'a> {
    pub(crate) name: &'a str,
    pub(crate) bytes: Vec<u8>,
    pub(crate) is_new: bool,
    /// The line if it is begun and not made.
    pub(crate) unmade: Fault<'a>,
}

/// The file of these bytes, if it has a name.
pub(crate) fn new_file<'a>(
    name: Option<&'a str>,
    bytes: Vec<u8>,
    is_new: bool,
    unmade: Fault<'a>,
) -> Option<NewFile<'a>>
    ensures { files_in result ≡ named_files (option_map (λ n. n.now) name.entry) bytes.items }
{
    match name {
        Some(name) => Some(NewFile {
            name,
            bytes,
            is_new,
            unmade,
        }),
        None => None,
    }
}

/// A file that was begun: it has its name once all else but the note is given.
#[derive(Drop)]
pub(crate) struct Partial<'a, F: Drop> {
    pub(crate) name: &'a str,
    pub(crate) file: F,
    pub(crate) unmade: Fault<'a>,
}

/// The text of the output, new files, a note, and the status.
#[derive(Drop)]
pub(crate) struct Prepared<'a> {
    pub(crate) text: Vec<u8>,
    /// Made before anything is given out, as a device table whose numbers are.
    pub(crate) first: Option<NewFile<'a>>,
    /// Made after the text, as an upload that is no text.
    pub(crate) upload: Option<NewFile<'a>>,
    /// Partial before anything is given out, and made after it, as the rows that are not taps.
    pub(crate) held: Option<NewFile<'a>>,
    pub(crate) note: String,
    pub(crate) status: u8,
}

/// Makes the file, if there is one.
#[tactic(auto, using(frame::proofs::Giving::gave_no_files))]
fn make_new<'a, W: World>(file: &Option<NewFile<'a>>, world: &mut W) -> Result<(), Halt<'a>>
    ensures made { OnOk result (Adds (W.run world.old) (W.run world.new)
        (λ g. with_files g (files_in file.now))) }
    ensures stopped { (words : List (List ℕ)) → IsNamedIn words file.now → IfErr result
        (λ halt. Leaves words halt.0 (W.run world.old) (W.run world.new)) }
{
    match file {
        None => Ok(()),
        Some(file) => match make(file.name, &file.bytes, file.is_new, world) {
            Ok(()) => Ok(()),
            Err(why) => Err(Halt(why, line_of(why, file.name, file.unmade))),
        },
    }
}

/// Makes the files that are not begun, and writes the text.
fn give<'a, W: World>(prepared: &Prepared<'a>, world: &mut W) -> Result<(), Halt<'a>>
    ensures given { OnOk result (Adds (W.run world.old) (W.run world.new)
        (λ g. with_prepared g prepared.now)) }
    ensures stopped { (words : List (List ℕ)) → AreNamed words prepared.now → IfErr result
        (λ halt. StopsIn words (W.run world.old) (W.run world.new)
        (λ g. with_prepared g prepared.now) halt.0) }
{
    make_new(&prepared.first, world)?;
    write(&prepared.text, world)?;
    make_new(&prepared.upload, world)?;
    Ok(())
}

/// Gives the file its name, if there is one.
#[tactic(auto, using(frame::proofs::Giving::gave_no_files))]
fn finish_partial<'a, W: World>(
    partial: Option<Partial<'a, W::File>>,
    world: &mut W,
) -> Result<(), Halt<'a>>
    requires { IsKnown W.File.contents partial }
    ensures made { OnOk result (Adds (W.run world.old) (W.run world.new)
        (λ g. with_files g (partial_files W.File.contents partial.entry))) }
    ensures stopped { (words : List (List ℕ)) → IsPartialIn words partial.entry → IfErr result
        (λ halt. Leaves words halt.0 (W.run world.old) (W.run world.new)) }
{
    match partial {
        None => Ok(()),
        Some(partial) => {
            let Partial { name, file, unmade } = partial;
            match finish(name, file, world) {
                Ok(()) => Ok(()),
                Err(why) => Err(Halt(why, line_of(why, name, unmade))),
            }
        }
    }
}

fn discard<'a, W: World>(partial: Option<Partial<'a, W::File>>, world: &mut W)
    ensures { W.run world.new ≡ W.run world.old }
{
    if let Some(partial) = partial {
        let Partial { name, file, unmade } = partial;
        let _ = name;
        let _ = unmade;
        world.discard(file);
    }
}

/// Makes the files, and writes the text between them. A file that was begun has its name after that.
/// Then gives the note.
pub(crate) fn carry<'a, W: World>(
    prepared: &Prepared<'a>,
    partial: Option<Partial<'a, W::File>>,
    world: &mut W,
) -> Result<u8, Halt<'a>>
    requires { IsKnown W.File.contents partial }
    ensures { (words : List (List ℕ)) (start : Run) (loads : List Load)
        → W.run world.old ≡ with_loads start loads → AreNamed words prepared.now
        → IsPartialIn words partial.entry → Carries words start
        (given_of loads prepared.now (partial_files W.File.contents partial.entry))
        prepared.now.status (W.run world.new) result }
{
    if let Err(halt) = give(prepared, world) {
        discard(partial, world);
        return Err(halt);
    }
    finish_partial(partial, world)?;
    world.flush()?;
    world.say(prepared.note.as_bytes());
    Ok(prepared.status)
}

/// The same, with the file that is held, if there is one.
pub(crate) fn carry_out<'a, W: World>(
    prepared: &Prepared<'a>,
    world: &mut W,
) -> Result<u8, Halt<'a>>
    ensures { (words : List (List ℕ)) (start : Run) (loads : List Load)
        → W.run world.old ≡ with_loads start loads → AreNamed words prepared.now
        → Carries words start (given_of loads prepared.now (files_in prepared.now.held))
        prepared.now.status (W.run world.new) result }
{
    match &prepared.held {
        None => carry(prepared, None, world),
        Some(held) => match begin(held.name, &held.bytes, held.is_new, world) {
            Err(why) => Err(Halt(why, line_of(why, held.name, held.unmade))),
            Ok(file) => {
                let partial = Partial {
                    name: held.name,
                    file,
                    unmade: held.unmade,
                };
                carry(prepared, Some(partial), world)
            }
        },
    }
}
