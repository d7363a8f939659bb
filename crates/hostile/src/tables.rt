//! Cases of encoding, and of fare tables and their clocks.

use crate::sample::{UNTIL, table};
use crate::stop::{Case, promise, twice};
use fare_table::FareTable;
use sample_table::{BUS, START, SUBWAY, bytes_of, tap_after};
use std::alloc::Global;
use tap_views::{Batch, Tap2Fields, TapFields, encode, encode_tap2};

fn reads_back(bytes: &[u8], taps: &[TapFields]) -> Case {
    let (batch, rest) = Batch::first(bytes)?;
    promise(rest.is_empty(), "bytes follow what was encoded")?;
    promise(
        batch.len() as usize == taps.len(),
        "another number of taps is encoded",
    )?;
    for (view, tap) in batch.taps().zip(taps) {
        promise(
            view.token() == tap.token.as_slice()
                && view.validator_number() == tap.validator
                && view.moment_ms() == tap.moment,
            "another tap is encoded",
        )?;
    }
    Ok(())
}

/// In the second layout the first tap alone.
fn encoded(alloc: Global, taps: &[TapFields; 2]) -> Case {
    reads_back(&encode(alloc, taps)?, taps)?;
    let shared = Tap2Fields {
        token: taps[0].token,
        moment: taps[0].moment,
    };
    reads_back(
        &encode_tap2(alloc, taps[0].validator, &[shared])?,
        &taps[..1],
    )
}

/// `encode` and `encode_tap2`.
pub(crate) fn encodes(alloc: Global) -> Case {
    let taps = [tap_after(0xa1, SUBWAY, 0), tap_after(0xa1, BUS, 7_200_000)];
    twice!(encoded(alloc, &taps))
}

fn is_sample(table: &FareTable) -> Case {
    for (validator, name) in [
        (999, None),
        (1000, Some("subway")),
        (1999, Some("subway")),
        (2000, Some("bus")),
        (2999, Some("bus")),
        (3000, None),
    ] {
        let mode = match table.mode_of(START, validator) {
            Some(mode) => Some(table.mode_name(mode)),
            None => None,
        };
        promise(mode == name, "a validator has another mode")?;
    }
    let full = table.terms_of(&bytes_of(0xa1));
    promise(
        (full.fare, full.rides, full.ceiling) == (300, 12, 3500),
        "other terms",
    )?;
    let reduced = table.terms_of(&bytes_of(0xd4));
    promise(
        (reduced.fare, reduced.rides, reduced.ceiling) == (150, 12, 1800),
        "other terms of a rider",
    )
}

fn was_read(alloc: Global) -> Case {
    is_sample(&table(alloc)?)
}

/// A refusal inside `toml` must not be reported as a fault of the text.
pub(crate) fn read(alloc: Global) -> Case {
    twice!(was_read(alloc))
}

/// The table still answers when its clone is gone.
fn cloned(alloc: Global, table: &FareTable) -> Case {
    let copy = table.try_clone(alloc)?;
    is_sample(&copy)?;
    drop(copy);
    is_sample(table)
}

/// `try_clone` takes no memory of its own.
pub(crate) fn clone(alloc: Global) -> Case {
    let table = table(alloc)?;
    twice!({
        is_sample(&table)?;
        cloned(alloc, &table)
    })
}

/// In March, before its first second, and when clocks are turned back.
fn window_ends(alloc: Global, table: &FareTable) -> Case {
    let clock = table.clock(alloc)?;
    let ends = [
        clock.window_end(table.window_span(), START),
        clock.window_end(table.window_span(), 1_709_873_999_999),
        clock.window_end(table.window_span(), 1_730_307_600_000),
    ];
    promise(
        ends == [UNTIL, 1_710_388_800_000, 1_730_869_200_000],
        "a window ends at another moment",
    )
}

/// Would catch a rule text that means other dates than New York's: `jiff` says what it means.
pub(crate) fn clock(alloc: Global) -> Case {
    let table = table(alloc)?;
    twice!({
        is_sample(&table)?;
        window_ends(alloc, &table)
    })
}
