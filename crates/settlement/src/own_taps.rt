//! The taps of one token, collected from uploads.

ghost use Rattle.std.specs.Prelude.{◌≡◌, ◌++◌, OnOk, map};
ghost use Rattle.tap_views.specs.Encoding.{fields_of};
ghost use Rattle.settlement.specs.Posted.{only};

use crate::reading::Choice;
use std::alloc::{AllocError, Global};
use tap_views::{Batch, TapFields, Token, UploadEnd, valid_batches};

fn add_batch(token: Token, batch: &Batch<'_>, taps: &mut Vec<TapFields>) -> Result<(), AllocError>
    ensures { OnOk result
        (taps.new.items ≡ taps.old.items ++ only token (map fields_of batch.now)) }
{
    for tap in batch.taps() {
        if Token::of(tap.token()) == token {
            taps.push(TapFields::of(&tap))?;
        }
    }
    Ok(())
}

impl Choice<Vec<TapFields>> for Token {
    ghost use Rattle.std.specs.Prelude.{◌≡◌, map};
    ghost use Rattle.tap_views.specs.Encoding.{fields_of};
    ghost use Rattle.settlement.specs.Posted.{only};

    ghost keeps = { λ token taps kept. kept.items ≡ only token (map fields_of taps) };

    fn start(&self, alloc: Global, _bytes: usize) -> Result<Vec<TapFields>, AllocError> {
        Ok(Vec::new(alloc))
    }

    fn add(&self, upload: &[u8], kept: &mut Vec<TapFields>) -> Result<UploadEnd, AllocError> {
        let mut number = 0;
        let mut valid = valid_batches(upload);
        while let Some(batch) = valid.next() {
            add_batch(*self, &batch, kept)?;
            number += u64::from(batch.len());
        }
        Ok(UploadEnd::by_fault(number, valid.fault()))
    }
}
