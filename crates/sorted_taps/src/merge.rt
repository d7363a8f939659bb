//! The taps of several files, merged.

ghost use Rattle.std.specs.Prelude.{◌≡◌, ◌≤◌, ℕ, List, length, map, IfOk, IsTrue, Some, OnOk};
ghost use Rattle.sorted_taps.specs.Merges.{AreAtEnd, AreStarted, AreTaken};
ghost use Rattle.sorted_taps.specs.Reading.{window_bytes};

use crate::fault::SortedFault;
use crate::reader::TapReader;
use crate::step::take_step;
use placed_files::Placed;
use std::alloc::{AllocError, Global};
use tap_views::{TapFields, Token};

/// Readers of several sorted files, from which the taps of all are taken in canonical order, a
/// token at a time. Each call gets the files, in one order.
#[derive(Drop)]
pub struct Merge {
    readers: Vec<TapReader>,
}

impl Merge {
    /// The merge goes on from where the readers are.
    pub fn of(readers: Vec<TapReader>) -> Merge
        ensures { result.readers ≡ readers }
    {
        Merge { readers }
    }

    /// At the first tap of each file. The window has `WINDOW_BYTES` at least.
    pub fn begin<F: Placed>(
        alloc: Global,
        files: &[F],
        window: &mut [u8],
    ) -> Result<Merge, SortedFault>
        requires { window_bytes ≤ length window.old }
        ensures number { IfOk result (λ merge. length merge.readers.items ≡ length files.now) }
        ensures started { IfOk result (λ merge. (all : List (List ℕ))
            → map F.bytes files.now ≡ map Some all → AreStarted all merge.readers.items) }
    {
        let mut readers = Vec::new(alloc);
        for file in files {
            readers.push(TapReader::at(alloc, file, 0, window)?)?;
        }
        Ok(Merge { readers })
    }

    /// The readers, in the order of the files.
    pub fn readers(&self) -> &[TapReader]
        ensures { result.now ≡ self.now.readers.items }
    {
        &self.readers
    }

    /// The readers as they are, in the order of the files.
    pub fn into_readers(self) -> Vec<TapReader>
        ensures { result ≡ self.readers }
    {
        self.readers
    }

    /// Takes the next taps, in place of those in the list: enough of them, or all that are left, or
    /// all with tokens below the bound. It stops after a step, which takes at most what the readers
    /// store. After a fault the merge is of no use. The window has `WINDOW_BYTES` at least.
    pub fn take<F: Placed>(
        &mut self,
        files: &[F],
        window: &mut [u8],
        below: Option<Token>,
        enough: usize,
        taps: &mut Vec<TapFields>,
    ) -> Result<(), SortedFault>
        requires window { window_bytes ≤ length window.old }
        requires files { length self.old.readers.items ≡ length files.now }
        ensures number { OnOk result (length self.new.readers.items ≡ length files.now) }
        ensures taken { OnOk result ((all : List (List ℕ))
            → map F.bytes files.now ≡ map Some all
            → AreTaken all self.old.readers.items taps.new.items self.new.readers.items) }
    {
        taps.clear();
        let mut before = None;
        for _ in 0..enough {
            let number = taps.len();
            if number >= enough || before == Some(number) {
                return Ok(());
            }
            take_step(&mut self.readers, files, window, below, taps)?;
            before = Some(number);
        }
        Ok(())
    }

    /// How many taps were taken of each file.
    pub fn numbers(&self, alloc: Global) -> Result<Vec<u64>, AllocError>
        ensures { IfOk result (λ numbers.
            numbers.items ≡ map (λ reader. reader.passed) self.now.readers.items) }
    {
        let mut numbers = Vec::new(alloc);
        for reader in &self.readers {
            numbers.push(reader.passed())?;
        }
        Ok(numbers)
    }
}

/// Whether all readers are at their files' ends.
pub fn are_at_end(readers: &[TapReader]) -> bool
    ensures { IsTrue result → AreAtEnd readers.now }
{
    for reader in readers {
        if reader.head().is_some() {
            return false;
        }
    }
    true
}
