//! An upload that grows by a batch at a time.

ghost use Rattle.std.specs.Prelude.{◌≡◌, ◌<◌, ◌++◌, ◌∷◌, [], List, IfOk, OnOk, length};
ghost use Rattle.tap_rows.specs.inside.Growing.{IsGrown};
ghost use Rattle.tap_views.specs.{Files.IsFileOf, Layout.moment_limit};
ghost use Rattle.tap_views.specs.declared.encoder.TapFields.{TapFields};

use std::alloc::{AllocError, Global};
use tap_views::{MAX_TAPS, TapFields, put_batch};

/// An upload in `TAP1` batches of 4,096 taps, and the taps of its next batch.
#[derive(Drop)]
pub(crate) struct Growing {
    upload: Vec<u8>,
    waiting: Vec<TapFields>,
}

impl Growing {
    pub(crate) fn new(alloc: Global) -> Result<Growing, AllocError>
        ensures { IfOk result (λ growing. IsGrown growing []) }
    {
        Ok(Growing {
            upload: Vec::new(alloc),
            waiting: Vec::with_capacity(alloc, MAX_TAPS)?,
        })
    }

    fn put_waiting(&mut self) -> Result<(), AllocError>
        requires { (taps : List TapFields) × IsGrown self.old taps }
        ensures grown { OnOk result ((taps : List TapFields) → IsGrown self.old taps
            → IsGrown self.new taps) }
        ensures empty { OnOk result (self.new.waiting.items ≡ []) }
    {
        put_batch(&mut self.upload, &self.waiting)?;
        self.waiting.clear();
        Ok(())
    }

    fn wait(&mut self, tap: TapFields) -> Result<(), AllocError>
        requires grown { (taps : List TapFields) × IsGrown self.old taps }
        requires room { length self.old.waiting.items < 4096 }
        requires early { tap.moment < moment_limit }
        ensures { OnOk result ((taps : List TapFields) → IsGrown self.old taps
            → IsGrown self.new (taps ++ tap ∷ [])) }
    {
        self.waiting.push(tap)?;
        Ok(())
    }

    pub(crate) fn push(&mut self, tap: TapFields) -> Result<(), AllocError>
        requires grown { (taps : List TapFields) × IsGrown self.old taps }
        requires early { tap.moment < moment_limit }
        ensures { OnOk result ((taps : List TapFields) → IsGrown self.old taps
            → IsGrown self.new (taps ++ tap ∷ [])) }
    {
        if self.waiting.len() < MAX_TAPS {
            return self.wait(tap);
        }
        self.put_waiting()?;
        self.wait(tap)
    }

    fn into_upload(self) -> Vec<u8>
        ensures { result ≡ self.upload }
    {
        let Growing { upload, waiting } = self;
        let _ = waiting;
        upload
    }

    /// The upload of all these taps.
    pub(crate) fn finish(mut self) -> Result<Vec<u8>, AllocError>
        requires { (taps : List TapFields) × IsGrown self taps }
        ensures { IfOk result (λ upload. (taps : List TapFields) → IsGrown self taps
            → IsFileOf upload.items taps) }
    {
        if self.waiting.is_empty() {
            return Ok(self.into_upload());
        }
        self.put_waiting()?;
        Ok(self.into_upload())
    }
}
