//! The sums of what a run reads and writes, while it does.

use crate::sum::{Sum, Summing};
use placed_files::{FileStamp, Placed};
use std::alloc::{AllocError, Global};
use std::sync::{Mutex, Wait};
use std::{fmt, fs, io};

/// A file that was read, and its sum.
#[derive(Drop)]
pub struct FileSum {
    pub name: String,
    pub sum: Sum,
}

/// A file that is read in pieces, from its start on, and the sum of what was read.
#[derive(Drop)]
pub struct FileSumming {
    name: String,
    summing: Summing,
}

impl FileSumming {
    /// The next piece.
    pub fn add(&mut self, piece: &[u8]) {
        self.summing.add(piece);
    }
}

#[derive(Drop)]
struct OpenedFile {
    name: String,
    stamp: FileStamp,
}

#[derive(Drop)]
struct Noted {
    loaded: Vec<FileSum>,
    opened: Vec<OpenedFile>,
    text: Summing,
    lacks_memory: bool,
}

/// The sums of what a run reads and writes. Several threads may note at once.
#[derive(Drop)]
pub struct RunSums {
    alloc: Global,
    noted: Mutex<Noted>,
}

/// The sums of a whole run: of the files, by their names, and of the text.
#[derive(Drop)]
pub struct Sums {
    pub files: Vec<FileSum>,
    pub text: Sum,
}

/// Why there are no sums of a run. Its `Display` is the fault line without its line feed.
#[derive(Drop)]
pub enum SumFault {
    /// This file, which is read in pieces, changed while or after it was read.
    Changed(String),
    /// This file cannot be read again.
    Unread(String),
    /// An allocation failed.
    NoMemory,
}

impl From<AllocError> for SumFault {
    fn from(_refused: AllocError) -> SumFault {
        SumFault::NoMemory
    }
}

impl fmt::Display for SumFault {
    fn fmt<W: fmt::Write>(&self, f: &mut fmt::Formatter<W>) -> fmt::Result {
        match self {
            SumFault::Changed(name) => write!(f, "fault: {name} changed while it was read"),
            SumFault::Unread(name) => write!(f, "fault: cannot read {name}"),
            SumFault::NoMemory => f.write_str("fault: out of memory"),
        }
    }
}

fn push_sum(
    alloc: Global,
    sums: &mut Vec<FileSum>,
    name: &str,
    sum: Sum,
) -> Result<(), AllocError> {
    let name = String::from_str(alloc, name)?;
    sums.push(FileSum { name, sum })?;
    Ok(())
}

fn push_opened(
    alloc: Global,
    opened: &mut Vec<OpenedFile>,
    name: &str,
    stamp: FileStamp,
) -> Result<(), AllocError> {
    let name = String::from_str(alloc, name)?;
    opened.push(OpenedFile { name, stamp })?;
    Ok(())
}

impl RunSums {
    /// A run that has read and written nothing yet.
    pub fn new(alloc: Global) -> RunSums {
        RunSums {
            alloc,
            noted: Mutex::new(Noted {
                loaded: Vec::new(alloc),
                opened: Vec::new(alloc),
                text: Summing::new(),
                lacks_memory: false,
            }),
        }
    }

    /// A load gave these bytes of the file of this name.
    pub fn note_load<R: Wait>(&self, rt: &R, name: &str, bytes: &[u8]) {
        let sum = Sum::of(bytes);
        let mut noted = self.noted.lock(rt);
        if push_sum(self.alloc, &mut noted.loaded, name, sum).is_err() {
            noted.lacks_memory = true;
        }
    }

    /// The sum of the file of this name, of which nothing is read yet.
    pub fn start(&self, name: &str) -> Result<FileSumming, AllocError> {
        Ok(FileSumming {
            name: String::from_str(self.alloc, name)?,
            summing: Summing::new(),
        })
    }

    /// The pieces of a file were all of it.
    pub fn note_summed<R: Wait>(&self, rt: &R, file: FileSumming) {
        let FileSumming { name, summing } = file;
        let sum = summing.end();
        let mut noted = self.noted.lock(rt);
        if noted.loaded.push(FileSum { name, sum }).is_err() {
            noted.lacks_memory = true;
        }
    }

    /// The file of this name, with this stamp, is read in pieces. Its sum is made at the end.
    pub fn note_opened<R: Wait>(&self, rt: &R, name: &str, stamp: FileStamp) {
        let mut noted = self.noted.lock(rt);
        if push_opened(self.alloc, &mut noted.opened, name, stamp).is_err() {
            noted.lacks_memory = true;
        }
    }

    /// A write of the text took these bytes.
    pub fn note_written<R: Wait>(&self, rt: &R, bytes: &[u8]) {
        self.noted.lock(rt).text.add(bytes);
    }

    /// The sums of the whole run. A file that was read in pieces is read once more, and must still
    /// have the stamp that it had when it was opened, before and after that.
    pub fn finish(self, rt: &HostRuntime) -> Result<Sums, SumFault> {
        let RunSums { alloc, noted } = self;
        let Noted {
            loaded,
            opened,
            text,
            lacks_memory,
        } = noted.into_inner();
        if lacks_memory {
            return Err(SumFault::NoMemory);
        }
        let mut files = loaded;
        for file in &opened {
            let name = file.name.as_str();
            let sum = match sum_of_opened(rt, alloc, file) {
                Ok(Some(sum)) => sum,
                Ok(None) => return Err(SumFault::Changed(String::from_str(alloc, name)?)),
                Err(_) => return Err(SumFault::Unread(String::from_str(alloc, name)?)),
            };
            push_sum(alloc, &mut files, name, sum)?;
        }
        files.sort_by(|one, other| one.name.as_str().cmp(other.name.as_str()))?;
        Ok(Sums {
            files,
            text: text.end(),
        })
    }
}

/// None if it has changed since it was opened.
fn sum_of_opened(rt: &HostRuntime, alloc: Global, opened: &OpenedFile) -> io::Result<Option<Sum>> {
    let mut file = fs::open(rt, opened.name.as_str())?;
    if file.stamp()? != opened.stamp {
        return Ok(None);
    }
    let sum = Sum::of_reader(alloc, &mut file)?;
    if file.stamp()? != opened.stamp {
        return Ok(None);
    }
    Ok(Some(sum))
}
