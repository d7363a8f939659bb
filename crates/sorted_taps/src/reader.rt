//! A reader of a file's taps.

ghost use Rattle.sorted_taps.specs.{Merged.BeginsNotBefore, Readers.ahead};
ghost use Rattle.sorted_taps.specs.Readers.{IsAfterFault, IsPassed, IsPositionedIn, IsStepFault};
ghost use Rattle.sorted_taps.specs.Reading.{window_bytes};
ghost use Rattle.sorted_taps.specs.inside.Steps.{BeginsBefore, IsAlike, IsMovedOn, IsRefilled};
ghost use Rattle.std.specs.List.Sorted.{IsSorted};
ghost use Rattle.std.specs.Prelude.{◌≡◌, ◌-◌, ◌<◌, ◌≤◌, ◌∷◌, [], List, get_or, length, take, IfErr};
ghost use Rattle.std.specs.Prelude.{IfOk, IfSome, IsTrue, MatchOption, OnOk, true, false};
ghost use Rattle.tap_parts.specs.Canonical.{tap_cmp};
ghost use Rattle.tap_views.specs.declared.encoder.TapFields.{TapFields};

use crate::fault::SortedFault;
use crate::file_batches::read_batches;
use placed_files::Placed;
use std::alloc::Global;
use tap_parts::is_before;
use tap_views::TapFields;

/// A position in a file's taps: at a tap, or at the end. It stores the batches that it read last,
/// some 600 taps or one batch. Each call gets the same file, and readers may share the window.
#[derive(Drop)]
pub struct TapReader {
    /// The offset of the first byte that was not decoded.
    offset: u64,
    taps: Vec<TapFields>,
    /// The index among them of its tap: their number at the file's end.
    next: usize,
    passed: u64,
}

impl TapReader {
    /// At the first tap of the batches at this offset, or at the end. The window: `WINDOW_BYTES`.
    pub fn at<F: Placed>(
        alloc: Global,
        file: &F,
        offset: u64,
        window: &mut [u8],
    ) -> Result<Self, SortedFault>
        requires { window_bytes ≤ length window.old }
        ensures holds { IfOk result (λ reader. IfSome (F.bytes file.now)
            (λ all. IsPositionedIn all offset [] reader)) }
        ensures fault { IfErr result (λ fault. IfSome (F.bytes file.now)
            (λ all. IsAfterFault all offset fault)) }
    {
        let mut reader = TapReader {
            offset,
            taps: Vec::new(alloc),
            next: 0,
            passed: 0,
        };
        reader.refill(file, window)?;
        Ok(reader)
    }

    /// The tap at which it is, or none at the file's end.
    pub fn head(&self) -> Option<&TapFields>
        ensures { MatchOption result (ahead self.now ≡ [])
            (λ tap. (rest : List TapFields) × (ahead self.now ≡ tap.now ∷ rest)) }
    {
        self.taps.get(self.next)
    }

    /// How many taps it has passed since it began.
    pub fn passed(&self) -> u64
        ensures { result ≡ self.now.passed }
    {
        self.passed
    }

    /// The taps in memory from the one on at which it is.
    pub(crate) fn ahead(&self) -> &[TapFields]
        ensures { result.now ≡ ahead self.now }
    {
        self.taps.get(self.next..).unwrap_or(&[])
    }

    pub(crate) fn count_anew(&mut self)
        ensures { self.new ≡ record self.old { passed = 0 } }
    {
        self.passed = 0;
    }

    pub(crate) fn is_at(&self, other: &TapReader) -> bool
        ensures { IsTrue result → IsAlike self.now other.now }
    {
        self.offset == other.offset && self.ahead() == other.ahead()
    }

    /// Goes on to the next tap, or to the file's end. A tap before the last one, or no batch, is a
    /// fault: after it the reader is of no use. The window has `WINDOW_BYTES` at least.
    pub fn advance<F: Placed>(&mut self, file: &F, window: &mut [u8]) -> Result<(), SortedFault>
        requires window { window_bytes ≤ length window.old }
        requires head { 0 < length (ahead self.old) }
        ensures kept { OnOk result (IfSome (F.bytes file.now)
            (λ all. IsPassed all self.old (take 1 (ahead self.old)) self.new)) }
        ensures fault { IfErr result (λ fault. IfSome (F.bytes file.now)
            (λ all. IsStepFault all self.old fault)) }
    {
        self.pass(1, file, window)
    }

    /// Passes this many taps in memory.
    pub(crate) fn pass<F: Placed>(
        &mut self,
        number: usize,
        file: &F,
        window: &mut [u8],
    ) -> Result<(), SortedFault>
        requires window { window_bytes ≤ length window.old }
        requires some { 0 < number }
        requires within { number ≤ length (ahead self.old) }
        requires order { IsSorted tap_cmp (take number (ahead self.old)) }
        ensures kept { OnOk result (IfSome (F.bytes file.now)
            (λ all. IsPassed all self.old (take number (ahead self.old)) self.new)) }
        ensures next { OnOk result ((tap : TapFields)
            → BeginsNotBefore (get_or (ahead self.old) (number - 1) tap) (ahead self.new)) }
        ensures fault { number ≡ 1 → IfErr result (λ fault. IfSome (F.bytes file.now)
            (λ all. IsStepFault all self.old fault)) }
    {
        let last = self.taps[self.next + (number - 1)];
        let Some(passed) = self.passed.checked_add(number as u64) else {
            return Err(SortedFault::Unread);
        };
        self.move_on(number, file, window)?;
        if self.is_before(&last) {
            return Err(SortedFault::OutOfOrder { tap: passed });
        }
        self.passed = passed;
        Ok(())
    }

    fn move_on<F: Placed>(
        &mut self,
        number: usize,
        file: &F,
        window: &mut [u8],
    ) -> Result<(), SortedFault>
        requires window { window_bytes ≤ length window.old }
        requires within { number ≤ length (ahead self.old) }
        ensures kept { OnOk result (IfSome (F.bytes file.now)
            (λ all. IsMovedOn all self.old number self.new)) }
        ensures fault { IfErr result (λ fault. IfSome (F.bytes file.now)
            (λ all. (length (ahead self.old) ≡ number) × IsAfterFault all self.old.offset fault)) }
    {
        self.next += number;
        if self.next < self.taps.len() {
            return Ok(());
        }
        self.refill(file, window)
    }

    fn is_before(&self, last: &TapFields) -> bool
        ensures no { result ≡ false → BeginsNotBefore last.now (ahead self.now) }
        ensures yes { result ≡ true → BeginsBefore last.now (ahead self.now) }
    {
        match self.head() {
            Some(tap) => is_before(tap, last),
            None => false,
        }
    }

    fn refill<F: Placed>(&mut self, file: &F, window: &mut [u8]) -> Result<(), SortedFault>
        requires { window_bytes ≤ length window.old }
        ensures kept { OnOk result (IfSome (F.bytes file.now)
            (λ all. IsRefilled all self.old self.new)) }
        ensures fault { IfErr result (λ fault. IfSome (F.bytes file.now)
            (λ all. IsAfterFault all self.old.offset fault)) }
    {
        self.next = 0;
        for _ in 0..u64::MAX {
            let used = read_batches(file, window, self.offset, &mut self.taps)?;
            self.offset += used;
            if used == 0 || !self.taps.is_empty() {
                return Ok(());
            }
        }
        Err(SortedFault::Unread)
    }
}
