//! Uploads that are lent to a service, each by its number.

use world::Trace;

/// An upload that was drawn could not be read, or an allocation for it failed.
#[derive(Clone, Copy, Debug, PartialEq, Eq, thiserror::Error)]
#[error("upload {upload} cannot be read")]
pub struct Unavailable {
    /// The number of the upload, from 0.
    pub upload: u32,
}

/// Uploads that are lent, each by its number, to several threads at once: a list of loaded uploads,
/// or a source that loads each as it is lent, so that memory holds one upload a worker.
pub trait UploadSource {
    ghost use Rattle.std.specs.Prelude.{◌≡◌, ◌<◌, List, IfNone, IfSome, length};
    ghost use Rattle.world.specs.Origins.{Origin};
    ghost use Rattle.fare_service.specs.Lending.{IsProvidedAs, IsUnavailable};

    // Where each upload comes from, in their order.
    ghost origins: { Self → List Origin };

    /// How many uploads there are.
    fn len(&self) -> usize
        ensures { result ≡ length (origins self.now) };

    /// The bytes of the upload of this number, from 0, read into `room` or not: what is in it is
    /// lost. The reads are recorded. An error: an allocation failed, or the upload cannot be read.
    fn provide<'b>(
        &'b self,
        upload: u32,
        room: &'b mut Vec<u8>,
        calls: &mut Trace,
    ) -> Option<&'b [u8]>
        requires { upload < length (origins self.now) }
        ensures provided { IfSome result (λ bytes. IsProvidedAs (origins self.now) upload
            calls.old.run calls.new.run bytes.now) }
        ensures none { IfNone result (IsUnavailable (origins self.now) upload) };
}

impl UploadSource for &[Vec<u8>] {
    ghost use Rattle.std.specs.Prelude.{map};
    ghost use Rattle.world.specs.Origins.{memory};

    ghost origins = { λ uploads. map (λ upload. memory upload.items) uploads.now };

    fn len(&self) -> usize {
        let uploads: &[Vec<u8>] = self;
        uploads.len()
    }

    fn provide<'b>(
        &'b self,
        upload: u32,
        _room: &'b mut Vec<u8>,
        _calls: &mut Trace,
    ) -> Option<&'b [u8]> {
        Some(self[upload as usize].as_slice())
    }
}
