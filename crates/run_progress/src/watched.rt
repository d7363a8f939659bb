//! Reads that are noted in a run's steps.

use crate::meter::Meter;
use crate::ticker::Ticker;
use file_sources::{Amount, Disk};
use placed_files::{FileStamp, Placed, Unopened};
use program_manners::STANDARD_INPUT;
use provenance::FileSumming;
use std::alloc::{AllocError, Global};
use std::fmt::Display;
use std::io;
use std::marker::Sync;
use std::sync::Wait;
use world::{Inputs, LoadFault, Loaded, MakeFault, Reading, Trace, World, WriteFault};

/// A world whose reads are noted. It gives what the one below gives.
#[derive(Drop)]
pub struct Watched<'a, R: Wait, S: Drop> {
    rt: &'a R,
    ticker: &'a Ticker,
    from: S,
}

impl<'a, R: Wait, S: Drop> Watched<'a, R, S> {
    ghost use Rattle.std.specs.Prelude.{◌≡◌};

    /// The world `from`, whose reads the ticker shows.
    pub fn new(rt: &'a R, ticker: &'a Ticker, from: S) -> Watched<'a, R, S>
        ensures { result.from ≡ from }
    {
        Watched { rt, ticker, from }
    }
}

/// A disk whose reads are noted. It gives what the one below gives.
#[derive(Clone, Copy)]
pub struct WatchedDisk<'a, R: Wait, D> {
    rt: &'a R,
    ticker: &'a Ticker,
    from: &'a D,
}

impl<'a, R: Wait, D> WatchedDisk<'a, R, D> {
    ghost use Rattle.std.specs.Prelude.{◌≡◌};

    /// The disk `from`, whose reads the ticker shows.
    pub fn new(rt: &'a R, ticker: &'a Ticker, from: &'a D) -> WatchedDisk<'a, R, D>
        ensures { result.from ≡ from.entry }
    {
        WatchedDisk { rt, ticker, from }
    }
}

/// A file whose reads are counted. It gives what the one below gives.
#[derive(Drop)]
pub struct WatchedFile<'a, F: Drop> {
    meter: &'a Meter,
    from: F,
}

impl<F: Placed + Drop> Placed for WatchedFile<'_, F> {
    ghost bytes = { λ w. F.bytes w.from };

    fn read_from(&self, buffer: &mut [u8], offset: u64) -> io::Result<usize> {
        let count = self.from.read_from(buffer, offset)?;
        self.meter.add(count as u64);
        Ok(count)
    }

    fn stamp(&self) -> io::Result<FileStamp> {
        self.from.stamp()
    }
}

/// A file that is read in pieces, the end of which is noted. It gives what the one below gives.
#[derive(Drop)]
pub struct WatchedStream<'a, R: Wait, S: Drop> {
    rt: &'a R,
    ticker: &'a Ticker,
    summing: Option<FileSumming>,
    from: S,
}

impl<R: Wait, S: Reading + Drop> Reading for WatchedStream<'_, R, S> {
    ghost has_read = { λ w. S.has_read w.from };

    fn read_on(&mut self, room: &mut Vec<u8>, from: usize) -> Result<usize, LoadFault> {
        let more = self.from.read_on(room, from)?;
        if let Some(summing) = &mut self.summing {
            summing.add(&room[from..from + more]);
        }
        Ok(more)
    }

    fn close(self, calls: &mut Trace) -> Result<(), LoadFault> {
        let WatchedStream {
            rt,
            ticker,
            summing,
            from,
        } = self;
        from.close(calls)?;
        ticker.steps.lock(rt).end_settled();
        if let (Some(sums), Some(file)) = (&ticker.sums, summing) {
            sums.note_summed(rt, file);
        }
        Ok(())
    }
}

impl<'a, R: Wait + Sync, D: Disk> Disk for WatchedDisk<'a, R, D> {
    type File = WatchedFile<'a, D::File>;

    type Stream = WatchedStream<'a, R, D::Stream>;

    ghost bytes_under = { λ w name. D.bytes_under w.from.now name };

    ghost origin = { λ w name. D.origin w.from.now name };

    fn open_placed(&self, name: &str) -> Result<WatchedFile<'a, D::File>, Unopened> {
        let from = self.from.open_placed(name)?;
        let meter = &self.ticker.meters.sorted;
        if let Ok(stamp) = from.stamp() {
            meter.extend(stamp.bytes);
            if let Some(sums) = &self.ticker.sums {
                sums.note_opened(self.rt, name, stamp);
            }
        }
        self.ticker.steps.lock(self.rt).open();
        Ok(WatchedFile { meter, from })
    }

    fn prefetch_size(&self, name: &str) -> Option<u64> {
        let size = self.from.prefetch_size(name);
        self.ticker.steps.lock(self.rt).look(size.is_some());
        size
    }

    fn push_sample(
        &self,
        alloc: Global,
        name: &str,
        sample: &mut Vec<u128>,
    ) -> Result<(), AllocError> {
        self.from.push_sample(alloc, name, sample)
    }

    fn read(&self, alloc: Global, name: String) -> Result<Loaded, LoadFault> {
        self.ticker.steps.lock(self.rt).begin_prefetch();
        let file = self.from.read(alloc, name)?;
        self.ticker.steps.lock(self.rt).end_prefetch();
        Ok(file)
    }

    fn read_into(
        &self,
        name: &str,
        room: Vec<u8>,
        calls: &mut Trace,
    ) -> Result<Vec<u8>, LoadFault> {
        self.ticker.steps.lock(self.rt).begin_prefetch();
        let bytes = self.from.read_into(name, room, calls)?;
        self.ticker.steps.lock(self.rt).end_settled();
        self.ticker.note_load(self.rt, name, &bytes);
        Ok(bytes)
    }

    fn open_stream(&self, name: &str) -> Result<WatchedStream<'a, R, D::Stream>, LoadFault> {
        self.ticker.steps.lock(self.rt).begin_prefetch();
        let summing = match &self.ticker.sums {
            Some(sums) => Some(sums.start(name)?),
            None => None,
        };
        Ok(WatchedStream {
            rt: self.rt,
            ticker: self.ticker,
            summing,
            from: self.from.open_stream(name)?,
        })
    }

    fn note_all(&self, all: Amount) {
        let (meter, all) = self.ticker.meters.of(all);
        meter.begin(all);
    }

    fn note_charged(&self, more: Amount) {
        let (meter, more) = self.ticker.meters.of(more);
        meter.add(more);
    }

    fn note_live(&self, late: Option<u64>) {
        self.ticker.findings.lock(self.rt).live = Some(late);
    }

    fn note_absent(&self) {
        self.ticker.findings.lock(self.rt).is_absent = true;
    }

    fn note_turns(&self, ahead: usize) {
        self.ticker.steps.lock(self.rt).begin_turns(ahead);
    }

    fn note_taken(&self, name: &str, bytes: &[u8]) {
        self.ticker.end_load(self.rt, name, bytes);
    }
}

impl<R: Wait, S: Inputs + Drop> Inputs for Watched<'_, R, S> {
    ghost run = { λ w. S.run w.from };

    fn load(&mut self, name: &str) -> Result<Vec<u8>, LoadFault> {
        self.ticker.steps.lock(self.rt).begin_load();
        let bytes = self.from.load(name)?;
        self.ticker.end_load(self.rt, name, &bytes);
        Ok(bytes)
    }

    fn load_into(&mut self, name: &str, room: Vec<u8>) -> Result<Vec<u8>, LoadFault> {
        self.from.load_into(name, room)
    }

    fn input(&mut self) -> Result<Vec<u8>, LoadFault> {
        self.ticker.steps.lock(self.rt).begin_input();
        let bytes = self.from.input()?;
        self.ticker.steps.lock(self.rt).end_input();
        self.ticker.note_load(self.rt, STANDARD_INPUT, &bytes);
        Ok(bytes)
    }

    fn take(&mut self, file: Loaded) -> Vec<u8> {
        self.from.take(file)
    }

    fn join(&mut self, calls: Trace) {
        self.from.join(calls);
    }
}

impl<R: Wait, S: World + Drop> World for Watched<'_, R, S> {
    type File = S::File;

    fn write(&mut self, piece: &[u8]) -> Result<(), WriteFault> {
        self.from.write(piece)
    }

    fn flush(&mut self) -> Result<(), WriteFault> {
        self.from.flush()
    }

    fn say(&mut self, text: &[u8]) {
        self.from.say(text);
    }

    fn report_line<D: Display + Drop>(&mut self, line: D) -> Result<(), io::Error> {
        self.from.report_line(line)
    }

    fn begin(&mut self, name: &str, is_new: bool) -> Result<S::File, MakeFault> {
        self.from.begin(name, is_new)
    }

    fn finish(&mut self, name: &str, file: S::File) -> Result<(), MakeFault> {
        self.from.finish(name, file)
    }

    fn fail(&mut self, name: &str, file: S::File) -> MakeFault {
        self.from.fail(name, file)
    }

    fn discard(&mut self, file: S::File) {
        self.from.discard(file);
    }
}
