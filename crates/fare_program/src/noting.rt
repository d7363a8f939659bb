//! Loaded uploads whose charging is noted on the disk, for whoever watches the run.

use fare_service::Gatekeeper;
use file_sources::{Amount, Disk};
use settlement::{LoadedUploads, Uploads};
use std::alloc::{AllocError, Global};
use tap_views::NoMemory;
use world::MemoryStream;

/// `u64::MAX` if it is more.
fn sum_of(sizes: &[u64]) -> u64 {
    let mut bytes = 0u64;
    for size in sizes {
        bytes = bytes.saturating_add(*size);
    }
    bytes
}

pub(crate) fn sizes_in(alloc: Global, files: &[Vec<u8>]) -> Result<Vec<u64>, NoMemory> {
    let mut sizes = Vec::new(alloc);
    for file in files {
        sizes.push(file.len() as u64)?;
    }
    Ok(sizes)
}

/// A gatekeeper that keeps nobody waiting. Each upload is noted when it is posted.
#[derive(Clone, Copy)]
pub(crate) struct NotingGatekeeper<'a, D> {
    disk: &'a D,
    sizes: &'a [u64],
}

impl<'a, D: Disk> NotingGatekeeper<'a, D> {
    pub(crate) fn new(disk: &'a D, sizes: &'a [u64]) -> Self {
        disk.note_all(Amount::Bytes(sum_of(sizes)));
        NotingGatekeeper { disk, sizes }
    }
}

impl<D: Disk> Gatekeeper for NotingGatekeeper<'_, D> {
    type Started = u32;

    ghost begins = { λ started. started };

    fn before(&self, upload: u32) -> u32 {
        upload
    }

    fn after(&self, upload: u32) {
        if let Some(size) = self.sizes.get(upload as usize) {
            self.disk.note_charged(Amount::Bytes(*size));
        }
    }
}

/// Loaded uploads. What is charged of them is noted.
#[derive(Clone, Copy)]
pub(crate) struct NotedUploads<'a, D> {
    pub(crate) disk: &'a D,
    pub(crate) all: &'a [Vec<u8>],
}

impl<'a, D: Disk> Uploads for NotedUploads<'a, D> {
    ghost use Rattle.std.specs.Prelude.{[], length, map, slice_index_or};
    ghost use Rattle.world.specs.Origins.{memory};

    type Opened = MemoryStream<'a>;

    ghost number = { λ uploads. length uploads.all.now };

    ghost origin = { λ uploads upload.
        memory (slice_index_or (map (λ u. u.items) uploads.all.now) upload []) };

    fn len(&self) -> usize {
        self.all.len()
    }

    fn size(&self, upload: usize) -> usize {
        LoadedUploads { all: self.all }.size(upload)
    }

    fn push_sample(&self, upload: usize, sample: &mut Vec<u128>) -> Result<(), AllocError> {
        LoadedUploads { all: self.all }.push_sample(upload, sample)
    }

    fn open(&self, upload: usize) -> Result<MemoryStream<'a>, AllocError> {
        LoadedUploads { all: self.all }.open(upload)
    }

    fn note_all(&self, taps: u64) {
        self.disk.note_all(Amount::Taps(taps));
    }

    fn note_charged(&self, taps: u64) {
        self.disk.note_charged(Amount::Taps(taps));
    }
}
