//! Files that are made: each is written under another name, and is given its own once it is whole.
ghost use Rattle.std.specs.Prelude.{◌≡◌, [], IfErr, IfOk, OnOk};
ghost use Rattle.world.specs.{Run.with_made, Writes.IsUnmade};

use crate::faults::MakeFault;
use crate::recorded::Recorded;
use crate::trace::Trace;
use std::fs::{File, Files, OpenFile};
use std::hash::{BuildHasher, Hasher, RandomState};
use std::io::{BufWriter, ErrorKind, Write};
use std::random::RandomSource;
use std::{fs, io};

/// How many bytes of a new file are collected before they are written: its lines are short.
const NEW_WRITE_BYTES: usize = 65_536;

/// A file that may replace another has long texts, which are not collected.
const WRITE_BYTES: usize = 0;

/// How many random names are tried for a file that is begun.
const NAMES_TRIED: u32 = 16;

/// A file that is being made, each write recorded. It has a random name beside its own, which no
/// file had, so that its own name is only ever that of a whole file, whatever other runs do.
#[derive(Drop)]
pub struct NewFile<F: Write + Drop> {
    started: String,
    file: Recorded<BufWriter<F>>,
    is_new: bool,
    has_failed: bool,
}

impl<F: Write + Drop> Write for NewFile<F> {
    ghost use Rattle.std.specs.Prelude.{Some};

    ghost contents = { λ new. Some new.file.trace.run.written };

    fn write(&mut self, bytes: &[u8]) -> io::Result<usize> {
        let written = self.file.write(bytes);
        self.has_failed |= match written {
            Ok(count) => count == 0 && !bytes.is_empty(),
            Err(_) => true,
        };
        written
    }

    fn flush(&mut self) -> io::Result<()> {
        self.file.flush()
    }
}

/// The folder of the file of this name.
pub fn folder_of(name: &str) -> &str {
    match name.rsplit_once('/') {
        None => ".",
        Some((folder, _)) if folder.is_empty() => "/",
        Some((folder, _)) => folder,
    }
}

/// None has the name, or a regular file, which is replaced.
fn can_have<R: Files>(rt: &R, name: &str) -> bool {
    match fs::metadata(rt, name) {
        Ok(about) => about.is_file(),
        Err(_) => true,
    }
}

fn collect<R: Files + AllocGlobal>(
    rt: &R,
    started: String,
    file: R::File,
    is_new: bool,
) -> Result<NewFile<R::File>, MakeFault>
    ensures { IfOk result (λ file. file.file.trace.run.written ≡ []) }
{
    let collected = if is_new { NEW_WRITE_BYTES } else { WRITE_BYTES };
    match BufWriter::with_capacity(rt.alloc(), collected, file) {
        Ok(file) => Ok(NewFile {
            started,
            file: Recorded::new(file),
            is_new,
            has_failed: false,
        }),
        Err(_) => {
            let _ = fs::remove_file(rt, started.as_str());
            Err(MakeFault::NoMemory)
        }
    }
}

fn begin_beside<R: Files + RandomSource + AllocGlobal>(
    rt: &R,
    name: &str,
    is_new: bool,
) -> Result<NewFile<R::File>, MakeFault>
    ensures { IfOk result (λ file. file.file.trace.run.written ≡ []) }
{
    if is_new && fs::symlink_metadata(rt, name).is_ok() {
        return Err(MakeFault::Exists);
    }
    if !is_new && !can_have(rt, name) {
        return Err(MakeFault::Unmade);
    }
    for _ in 0..NAMES_TRIED {
        let Ok(random) = RandomState::new(rt) else {
            return Err(MakeFault::Unmade);
        };
        let digits = random.build_hasher().finish();
        let started = format!(in rt.alloc(); "{name}.{digits:016x}")?;
        match File::create_new(rt, started.as_str()) {
            Ok(file) => return collect(rt, started, file, is_new),
            Err(error) if error.kind() == ErrorKind::AlreadyExists => {}
            Err(_) => return Err(MakeFault::Unmade),
        }
    }
    Err(MakeFault::Unmade)
}

pub(crate) fn begin<R: Files + RandomSource + AllocGlobal>(
    rt: &R,
    name: &str,
    is_new: bool,
    trace: &mut Trace,
) -> Result<NewFile<R::File>, MakeFault>
    ensures empty { IfOk result (λ file. file.file.trace.run.written ≡ []) }
    ensures unchanged { OnOk result (trace.new.run ≡ trace.old.run) }
    ensures unmade { IfErr result (IsUnmade trace.old.run trace.new.run name.now) }
{
    match begin_beside(rt, name, is_new) {
        Ok(file) => Ok(file),
        Err(MakeFault::NoMemory) => Err(MakeFault::NoMemory),
        Err(why) => {
            trace.unmade(name);
            Err(why)
        }
    }
}

/// Gives the begun file a name that no file has. Where the system has no links it takes the name of
/// an empty file, which it replaces.
fn name_new<R: Files>(rt: &R, started: &str, name: &str) -> io::Result<()> {
    match fs::hard_link(rt, started, name) {
        Ok(()) => fs::remove_file(rt, started),
        Err(error) if error.kind() == ErrorKind::AlreadyExists => Err(error),
        Err(_) => {
            let _reserved = File::create_new(rt, name)?;
            fs::rename(rt, started, name)
        }
    }
}

/// Writes a folder's names to the device. If the system cannot, the file is whole all the same.
fn sync_folder<R: Files>(rt: &R, folder: &str) {
    if let Ok(folder) = fs::open(rt, folder) {
        let _ = folder.sync_all();
    }
}

fn finish_started<R: Files>(
    rt: &R,
    name: &str,
    started: &str,
    file: &mut BufWriter<R::File>,
    is_new: bool,
) -> io::Result<()> {
    file.flush()?;
    file.get_ref().sync_all()?;
    if is_new {
        name_new(rt, started, name)?;
    } else {
        fs::rename(rt, started, name)?;
    }
    sync_folder(rt, folder_of(name));
    Ok(())
}

pub(crate) fn finish<R: Files>(
    rt: &R,
    name: &str,
    file: NewFile<R::File>,
    trace: &mut Trace,
) -> Result<(), MakeFault>
    ensures made { OnOk result (trace.new.run ≡ with_made trace.old.run
        (record { name = name.now; bytes = file.file.trace.run.written })) }
    ensures unmade { IfErr result (IsUnmade trace.old.run trace.new.run name.now) }
{
    let NewFile {
        started,
        file,
        is_new,
        has_failed,
    } = file;
    let _ = has_failed;
    let (mut file, calls) = file.into_parts();
    match finish_started(rt, name, started.as_str(), &mut file, is_new) {
        Ok(()) => {
            trace.made(name, &calls);
            Ok(())
        }
        Err(_) => {
            let _ = fs::remove_file(rt, started.as_str());
            trace.unmade(name);
            Err(MakeFault::Unmade)
        }
    }
}

pub(crate) fn discard<R: Files>(rt: &R, file: NewFile<R::File>) {
    let _ = fs::remove_file(rt, file.started.as_str());
}

/// If no write to it failed, an allocation did.
pub(crate) fn fail<R: Files>(
    rt: &R,
    name: &str,
    file: NewFile<R::File>,
    trace: &mut Trace,
) -> MakeFault
    ensures { IsUnmade trace.old.run trace.new.run name.now result }
{
    let has_failed = file.has_failed;
    discard(rt, file);
    if has_failed {
        trace.unmade(name);
        return MakeFault::Unmade;
    }
    MakeFault::NoMemory
}
