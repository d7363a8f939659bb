//! The taps of one token of sorted files.

ghost use Rattle.settlement.specs.{Posted.token_of_tap, SettledTaps.AreSettledTapsOf};
ghost use Rattle.settled_bills.specs.Faults.{IsBillFault};
ghost use Rattle.settled_bills.specs.inside.OwnTaps.{IsOwnPushed, IsOwnResult};
ghost use Rattle.sorted_taps.specs.Reading.{window_bytes};
ghost use Rattle.std.specs.Prelude.{◌≡◌, ◌≢◌, ◌≤◌, true, ℕ, List, All, IfErr, IfOk, IfSome, OnOk};
ghost use Rattle.std.specs.Prelude.{Some, length, map};
ghost use Rattle.tap_parts.specs.Canonical.{IsCanonical};
ghost use Rattle.tap_views.specs.Encoding.{AreEarly};
ghost use Rattle.tap_views.specs.UploadEnds.{ArePlainEnds, are_posted};

use crate::fault::BillFault;
use crate::own_by_threads::{OwnTaps, own_of_files};
use crate::taker::{last_of, name_of};
use crate::tap_numbers::ends_of;
use placed_files::Placed;
use settlement::TokenTaps;
use sorted_taps::{SortedFault, TapReader, have_stamps, stamps_of};
use std::alloc::{AllocError, Global};
use std::marker::Sync;
use std::thread::Threads;
use tap_parts::sort;
use tap_views::{TapFields, Token};

fn push_own(
    token: Option<Token>,
    tap: &TapFields,
    taps: &mut Vec<TapFields>,
) -> Result<(), AllocError>
    ensures { OnOk result (IsOwnPushed token tap.now taps.old.items taps.new.items) }
{
    let name = name_of(tap);
    let Some(own) = token else {
        return Ok(());
    };
    if name != own {
        return Ok(());
    }
    taps.push(*tap)?;
    Ok(())
}

/// The file is checked whole.
pub(crate) fn own_of_file<F: Placed>(
    alloc: Global,
    token: Option<Token>,
    file: &F,
    window: &mut [u8],
) -> Result<OwnTaps, SortedFault>
    requires { window_bytes ≤ length window.old }
    ensures { IfSome (F.bytes file.now) (IsOwnResult token result) }
{
    let mut taps = Vec::new(alloc);
    let mut reader = TapReader::at(alloc, file, 0, window)?;
    for _ in 0..u64::MAX {
        match reader.head() {
            None => {
                let number = reader.passed();
                return Ok(OwnTaps { taps, number });
            }
            Some(tap) => push_own(token, tap, &mut taps)?,
        }
        reader.advance(file, window)?;
    }
    Err(SortedFault::Unread)
}

/// Sorts in the same memory.
fn in_order(taps: Vec<TapFields>) -> Vec<TapFields>
    ensures { IsCanonical taps.items result.items }
{
    let mut list = taps;
    sort(&mut list);
    list
}

/// The taps of one token of sorted files, in canonical order: no other tap is stored. One pass
/// checks each file whole, a share of the files each by `workers` threads. The fault is that of the
/// first file that has one: neither taps nor fault depend on the workers. A file that was written
/// meanwhile, or has another length at the end, is reported as changed.
pub fn sorted_taps_of<R: Threads + Sync, F: Placed + Sync>(
    rt: &R,
    alloc: Global,
    files: &[F],
    token: Token,
    workers: u32,
) -> Result<TokenTaps, BillFault>
    ensures ended { IfOk result (λ made. (all : List (List ℕ))
        → map F.bytes files.now ≡ map Some all → ArePlainEnds all made.ends.items) }
    ensures posted { IfOk result (λ made. are_posted made.ends.items ≡ true) }
    ensures order { IfOk result (λ made. (all : List (List ℕ))
        → map F.bytes files.now ≡ map Some all → AreSettledTapsOf all token made.taps.items) }
    ensures early { IfOk result (λ made. AreEarly (λ tap. tap.moment) made.taps.items) }
    ensures its { IfOk result (λ made. All (λ tap. token_of_tap tap ≡ token) made.taps.items) }
    ensures fault { IfErr result (λ fault. (all : List (List ℕ))
        → map F.bytes files.now ≡ map Some all → IsBillFault all fault) }
    ensures unwritten { IfErr result (λ fault. fault ≢ BillFault.Write) }
{
    let stamps = stamps_of(alloc, files)?;
    let own = own_of_files(rt, alloc, Some(token), files, workers)?;
    if !have_stamps(files, &stamps) {
        return Err(BillFault::Changed);
    }
    let ends = ends_of(alloc, &own.numbers)?;
    let list = in_order(own.taps);
    // proof: no batch has a later moment, and no tap of another token was kept
    let Some(last) = last_of(&list, token) else {
        return Err(BillFault::Changed);
    };
    if last != token {
        return Err(BillFault::Changed);
    }
    Ok(TokenTaps { ends, taps: list })
}
