//! Named files that are read while their taps are charged.
ghost use Rattle.fare_program.specs.Program.{Charges};
ghost use Rattle.fare_program.specs.inside.{Ends.Gives, Fault.CanStop, Options.request_of};
ghost use Rattle.std.specs.Io.KnownBytes.{Keeps};
ghost use Rattle.std.specs.Prelude.{◌≡◌, ◌<◌, ⊤, List, None, IfErr, IfSome, length};
ghost use Rattle.world.specs.{Origins.with_loads, Run.Load};

use crate::fault::Fault;
use crate::options::Job;
use crate::posting::charge_provided;
use crate::settle::charge_settled;
use fare_service::UploadSource;
use fare_table::FareTable;
use file_sources::{Amount, Disk};
use settlement::Uploads;
use std::alloc::{AllocError, Global};
use std::io::Write;
use std::marker::Sync;
use std::mem;
use std::random::RandomSource;
use std::sync::Wait;
use std::thread::Threads;
use world::{Inputs, Trace};

/// Files of a disk, each of which is read when its turn comes.
#[derive(Clone, Copy)]
pub(crate) struct NamedFiles<'a, D> {
    pub(crate) alloc: Global,
    pub(crate) disk: &'a D,
    pub(crate) names: &'a [&'a str],
    /// The size of each in bytes, as it was seen before.
    pub(crate) sizes: &'a [u64],
}

impl<D: Disk> Uploads for NamedFiles<'_, D> {
    ghost use Rattle.std.specs.Prelude.{length, map};
    ghost use Rattle.fare_program.specs.FilesLoaded.{text_at};

    type Opened = D::Stream;

    ghost number = { λ files. length files.names.now };

    ghost origin = { λ files upload.
        D.origin files.disk.now (text_at (map (λ n. n.now) files.names.now) upload) };

    fn len(&self) -> usize {
        self.names.len()
    }

    fn size(&self, upload: usize) -> usize {
        match self.sizes.get(upload) {
            Some(size) => *size as usize,
            None => 0,
        }
    }

    fn push_sample(&self, upload: usize, sample: &mut Vec<u128>) -> Result<(), AllocError> {
        match self.names.get(upload) {
            Some(name) => self.disk.push_sample(self.alloc, name, sample),
            None => Ok(()),
        }
    }

    fn open(&self, upload: usize) -> Result<D::Stream, AllocError> {
        match self.disk.open_stream(self.names[upload]) {
            Ok(stream) => Ok(stream),
            Err(_) => Err(AllocError),
        }
    }

    fn note_all(&self, taps: u64) {
        self.disk.note_all(Amount::Taps(taps));
    }

    fn note_charged(&self, taps: u64) {
        self.disk.note_charged(Amount::Taps(taps));
    }
}

impl<D: Disk> UploadSource for NamedFiles<'_, D> {
    ghost use Rattle.std.specs.Prelude.{map};
    ghost use Rattle.fare_program.specs.inside.PostedFiles.{unless_memory};

    ghost origins = { λ files.
        map (λ n. unless_memory (D.origin files.disk.now n.now)) files.names.now };

    fn len(&self) -> usize {
        self.names.len()
    }

    fn provide<'b>(
        &'b self,
        upload: u32,
        room: &'b mut Vec<u8>,
        calls: &mut Trace,
    ) -> Option<&'b [u8]> {
        let mut taken = mem::replace(room, Vec::new(self.alloc));
        // one byte more shows that the file has ended
        let size = self.size(upload as usize).saturating_add(1);
        if taken.resize(size, 0).is_err() {
            return None;
        }
        let Ok(bytes) = self
            .disk
            .read_into(self.names[upload as usize], taken, calls)
        else {
            return None;
        };
        *room = bytes;
        Some(room.as_slice())
    }
}

/// The sizes of the files, if all may be read before their turns.
pub(crate) fn sizes_of<D: Disk>(alloc: Global, disk: &D, names: &[&str]) -> Option<Vec<u64>> {
    let mut sizes = Vec::new(alloc);
    for name in names {
        sizes.push(disk.prefetch_size(name)?).ok()?;
    }
    Some(sizes)
}

/// Each file is read when its turn comes. Returns whether each was posted whole.
fn charge_named<'a, R: Threads + Wait + RandomSource + Sync, D: Disk + Sync, W: Write>(
    job: &Job<'_, 'a, R, D>,
    table: &FareTable,
    sizes: &[u64],
    calls: &mut Trace,
    out: &mut W,
) -> Result<bool, Fault<'a>>
    requires { 0 < length job.now.options.files.items }
    ensures ends { Gives (λ text success. (loads : List Load)
        × (calls.new.run ≡ with_loads calls.old.run loads)
        × Charges (request_of job.now.options) (D.origin job.now.disk.now) table.now job.now.token
        loads text success) (W.contents out.old) (W.contents out.new) result }
    ensures stop { IfErr result (CanStop ⊤ ⊥) }
{
    let options = &job.options;
    let uploads = NamedFiles {
        alloc: job.alloc,
        disk: job.disk,
        names: options.files.as_slice(),
        sizes,
    };
    if options.settle {
        return charge_settled(job, table, &uploads, calls, out);
    }
    charge_provided(job, table, uploads, sizes, calls, out)
}

/// Charges the named files while they are read, if all may be read before their turns. Returns
/// whether each was posted whole, or that a write failed. What was loaded is joined to the run.
///
/// `None` says that nothing was written, and that the run has no load of what was read. Then the files
/// are to be loaded in their turns, so that the fault of the first file in the order of the words is
/// reported.
pub(crate) fn charge_prefetched<
    'a,
    R: Threads + Wait + RandomSource + Sync,
    D: Disk + Sync,
    I: Inputs,
    W: Write,
>(
    job: &Job<'_, 'a, R, D>,
    table: &FareTable,
    inputs: &mut I,
    out: &mut W,
) -> Option<Result<bool, Fault<'a>>>
    ensures ends { IfSome result (Gives (λ text success. (loads : List Load)
        × (I.run inputs.new ≡ with_loads (I.run inputs.old) loads)
        × Charges (request_of job.now.options) (D.origin job.now.disk.now) table.now job.now.token
        loads text success) (W.contents out.old) (W.contents out.new)) }
    ensures fault { IfSome result (λ ended. IfErr ended (λ fault. fault ≡ Fault.Write)) }
    ensures none { result ≡ None → Keeps (W.contents out.old) (W.contents out.new) }
    ensures unloaded { result ≡ None → I.run inputs.new ≡ I.run inputs.old }
{
    let options = &job.options;
    if options.files.is_empty() {
        return None;
    }
    let Some(sizes) = sizes_of(job.alloc, job.disk, options.files.as_slice()) else {
        return None;
    };
    let mut calls = Trace::new();
    match charge_named(job, table, &sizes, &mut calls, out) {
        Ok(success) => {
            inputs.join(calls);
            Some(Ok(success))
        }
        Err(Fault::Write) => {
            inputs.join(calls);
            Some(Err(Fault::Write))
        }
        Err(_) => None,
    }
}
