//! Files that are loaded: up to the limit, and ahead. No contract says what a system's file holds.

use super::running::run_over;
use fare_program::{Disk, load_next, prefetch_files};
use placed_files::{InMemory, Unopened};
use std::alloc::{AllocError, Global};
use std::io::Read;
use std::marker::Sync;
use std::sync::atomic::{AtomicU64, Ordering};
use std::test::Fail;
use std::thread::Threads;
use std::{fs, io};
use world::{LOAD_LIMIT_BYTES, LoadFault, Loaded, System, Trace, load_input};

/// A reader that gives this many zeros, a buffer at a time, and then fails or ends.
#[derive(Drop)]
struct Zeros {
    left: usize,
    fails: bool,
}

impl Read for Zeros {
    fn read(&mut self, buf: &mut [u8]) -> io::Result<usize> {
        if self.left == 0 && self.fails {
            return Err(io::Error::from(io::ErrorKind::Other));
        }
        let count = buf.len().min(self.left);
        for byte in &mut buf[..count] {
            *byte = 0;
        }
        self.left -= count;
        Ok(count)
    }
}

#[test]
fn loads_up_to_the_limit(rt: HostRuntime) -> Result<(), Fail> {
    let alloc = rt.alloc();
    let rows = [
        (0, false, Ok(0)),
        (5_000, false, Ok(5_000)),
        (5_000, true, Err(LoadFault::Unread)),
        (LOAD_LIMIT_BYTES, false, Ok(LOAD_LIMIT_BYTES)),
        (LOAD_LIMIT_BYTES, true, Err(LoadFault::Unread)),
        (LOAD_LIMIT_BYTES + 1, false, Err(LoadFault::TooLong)),
        (usize::MAX, true, Err(LoadFault::TooLong)),
    ];
    for (left, fails, answer) in rows {
        let loaded = load_input(alloc, &mut Zeros { left, fails }, &mut Trace::new());
        assert_eq!(rt; loaded.map(|bytes| bytes.len()), answer, "of {left}");
    }
    let loaded = load_input(alloc, &mut b"tap".as_slice(), &mut Trace::new())?;
    assert_eq!(rt; loaded.as_slice(), b"tap".as_slice());
    Ok(())
}

/// Each file holds its own name. One is named twice, and they are loaded in another order too.
#[test]
fn loads_each_file_ahead_under_its_name(rt: HostRuntime) -> Result<(), Fail> {
    let [a, b, c] = ["each_a.tap", "each_b.tap", "each_c.tap"];
    for name in [a, b, c] {
        fs::write(&rt, name, name)?;
    }
    for threads in [1, 2, 3, 16] {
        for order in [[a, b, a, c], [c, b, a, a], [b, a, c, a]] {
            let mut ahead = prefetch_files(&rt, rt.alloc(), &rt, &[a, b, a, c], threads);
            let mut world = System::new(&rt, io::sink(), io::sink());
            for name in order {
                let loaded = load_next(&rt, &mut ahead, name, &mut world)?;
                assert_eq!(rt; loaded.as_slice(), name.as_bytes(), "by {threads}");
            }
        }
    }
    for name in [a, b, c] {
        fs::remove_file(&rt, name)?;
    }
    Ok(())
}

/// What a file holds at first, and when its turn comes, says when it was read.
#[test]
fn reads_files_ahead_by_several_threads_alone(rt: HostRuntime) -> Result<(), Fail> {
    let [a, b, c, folder] = ["early_a.tap", "early_b.tap", "early_c.tap", "early_folder"];
    fs::create_dir(&rt, folder)?;
    for (threads, seen) in [(1, "late"), (2, "soon"), (16, "soon")] {
        for name in [a, b, c] {
            fs::write(&rt, name, "soon")?;
        }
        let mut ahead = prefetch_files(&rt, rt.alloc(), &rt, &[a, b, folder, c], threads);
        let mut world = System::new(&rt, io::sink(), io::sink());
        let mut load = |name: &str| load_next(&rt, &mut ahead, name, &mut world);
        for name in [a, b, c] {
            fs::write(&rt, name, "late")?;
        }
        assert_eq!(rt; load(a)?.as_slice(), seen.as_bytes(), "by {threads}");
        assert_eq!(rt; load(b)?.as_slice(), seen.as_bytes(), "by {threads}");
        assert_eq!(rt; load(folder).err(), Some(LoadFault::Unread));
        assert_eq!(rt; load(c)?.as_slice(), b"late".as_slice(), "by {threads}");
    }
    for name in [a, b, c] {
        fs::remove_file(&rt, name)?;
    }
    fs::remove_dir(&rt, folder)?;
    Ok(())
}

/// A disk of the system's files, but for some names. It counts the files that were read ahead.
#[derive(Drop)]
struct Names<'a, R> {
    rt: &'a R,
    ahead: AtomicU64,
}

impl<R: Disk> Disk for Names<'_, R> {
    type File = InMemory<'static>;

    type Stream = R::Stream;

    ghost origin = { λ disk name. R.origin disk.rt.now name };

    fn open_placed(&self, _: &str) -> Result<InMemory<'static>, Unopened> {
        Err(Unopened::Unread)
    }

    fn prefetch_size(&self, name: &str) -> Option<u64> {
        if name == "pipe" { None } else { Some(0) }
    }

    fn push_sample(&self, _: Global, _: &str, _: &mut Vec<u128>) -> Result<(), AllocError> {
        Ok(())
    }

    fn read_into(
        &self,
        name: &str,
        room: Vec<u8>,
        calls: &mut Trace,
    ) -> Result<Vec<u8>, LoadFault> {
        self.rt.read_into(name, room, calls)
    }

    fn open_stream(&self, name: &str) -> Result<R::Stream, LoadFault> {
        self.rt.open_stream(name)
    }

    fn read(&self, alloc: Global, name: String) -> Result<Loaded, LoadFault> {
        match name.as_str() {
            "none" => Err(LoadFault::Unread),
            "long" => Err(LoadFault::TooLong),
            "large" => Err(LoadFault::NoMemory),
            _ => self.rt.read(alloc, name),
        }
    }

    fn note_turns(&self, ahead: usize) {
        self.ahead.store(ahead as u64, Ordering::SeqCst);
    }
}

fn names_of<R>(rt: &R) -> Names<'_, R> {
    Names {
        rt,
        ahead: AtomicU64::new(0),
    }
}

/// The names of what two threads read ahead, in the order of the list.
fn prefetched_names<R: Threads + Sync + Disk>(
    rt: &R,
    alloc: Global,
    names: &[&str],
) -> Result<String, Fail> {
    let mut text = String::new(alloc);
    for file in prefetch_files(rt, alloc, &names_of(rt), names, 2) {
        write!(text, "{} ", file.name())?;
    }
    Ok(text)
}

/// Each thread's part ends before the first file that is not loaded.
#[test]
fn reads_parts_up_to_a_fault(rt: HostRuntime) -> Result<(), Fail> {
    let files = ["part_a", "part_b", "part_c", "part_d"];
    let [a, b, c, d] = files;
    for name in files {
        fs::write(&rt, name, name)?;
    }
    let rows = [
        ([a, b, c, d], "part_d part_c part_b part_a "),
        ([a, "none", c, d], "part_d part_c part_a "),
        (["none", b, "long", d], ""),
        (["large", b, c, "large"], "part_c "),
        ([a, b, c, "pipe"], "part_c part_b part_a "),
        ([a, "pipe", c, d], "part_a "),
        (["pipe", b, c, d], ""),
    ];
    for (names, reported) in rows {
        let text = prefetched_names(&rt, rt.alloc(), &names)?;
        assert_eq!(rt; text.as_str(), reported, "{names:?}");
    }
    for name in files {
        fs::remove_file(&rt, name)?;
    }
    Ok(())
}

#[test]
fn reads_files_ahead_for_any_number_of_workers(rt: HostRuntime) -> Result<(), Fail> {
    let alloc = rt.alloc();
    let files = ["many_a", "many_b", "many_c"];
    let [a, b, c] = files;
    for name in files {
        fs::write(&rt, name, name)?;
    }
    for workers in ["1", "2", "3", "16"] {
        let words = ["--workers", workers, a, b, c];
        let disk = names_of(&rt);
        let mut out = Vec::new(alloc);
        let (status, err) = run_over(&rt, alloc, &words, &disk, &mut out)?;
        assert_eq!(rt; (status, err.len()), (1, 0), "by {workers}");
        assert_eq!(rt; disk.ahead.load(Ordering::SeqCst), 3, "by {workers}");
    }
    for name in files {
        fs::remove_file(&rt, name)?;
    }
    Ok(())
}
