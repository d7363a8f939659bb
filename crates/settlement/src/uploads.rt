//! Uploads that are read one by one, as their turns come.

use std::alloc::AllocError;
use std::marker::Sync;
use world::{MemoryStream, Reading};

/// Uploads that are read one by one, by several threads at once.
pub trait Uploads {
    ghost use Rattle.std.specs.Prelude.{◌≡◌, ◌<◌, ℕ, [], IfOk};
    ghost use Rattle.world.specs.Origins.{Origin};

    /// An upload that is being read.
    type Opened: Reading + Sync + Drop;

    // How many uploads there are.
    ghost number: { Self → ℕ };

    // Where the bytes of an upload come from: of the one of this number, from 0.
    ghost origin: { Self → ℕ → Origin };

    /// How many uploads there are.
    fn len(&self) -> usize
        ensures { result ≡ number self.now };

    /// About how many bytes an upload has. Any number is right: only speed and memory depend on it.
    fn size(&self, upload: usize) -> usize;

    /// Adds some tokens of an upload to a sample, as big-endian numbers. Any are right, and none:
    /// only speed and memory depend on them.
    fn push_sample(&self, upload: usize, sample: &mut Vec<u128>) -> Result<(), AllocError>;

    /// An upload, to be read from its start on. An error is out of memory, or that it cannot be read.
    fn open(&self, upload: usize) -> Result<Self::Opened, AllocError>
        requires { upload < number self.now }
        ensures { IfOk result (λ opened.
            Self.Opened.has_read opened (origin self.now upload) []) };

    /// Notes how many valid taps are to be charged, before the first one is, for whoever watches
    /// the run.
    fn note_all(&self, _taps: u64) {}

    /// Notes that `_taps` more of them are charged.
    fn note_charged(&self, _taps: u64) {}
}

/// Uploads that are loaded already.
#[derive(Clone, Copy)]
pub struct LoadedUploads<'a> {
    pub all: &'a [Vec<u8>],
}

impl<'a> Uploads for LoadedUploads<'a> {
    ghost use Rattle.std.specs.Prelude.{[], length, map, slice_index_or};
    ghost use Rattle.world.specs.Origins.{memory};

    type Opened = MemoryStream<'a>;

    ghost number = { λ uploads. length uploads.all.now };

    ghost origin = { λ uploads upload.
        memory (slice_index_or (map (λ u. u.items) uploads.all.now) upload []) };

    fn len(&self) -> usize {
        self.all.len()
    }

    fn size(&self, upload: usize) -> usize {
        match self.all.get(upload) {
            Some(bytes) => bytes.len(),
            None => 0,
        }
    }

    fn push_sample(&self, upload: usize, sample: &mut Vec<u128>) -> Result<(), AllocError> {
        match self.all.get(upload) {
            Some(bytes) => tap_views::push_sample(bytes, sample),
            None => Ok(()),
        }
    }

    fn open(&self, upload: usize) -> Result<MemoryStream<'a>, AllocError> {
        Ok(MemoryStream {
            left: self.all[upload].as_slice(),
        })
    }
}
