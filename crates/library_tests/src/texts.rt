//! The texts of faults, which no program prints.

use fare_table::{Key, TableFault};
use std::alloc::Global;
use std::fmt::Display;
use std::process::Abort;
use std::test::Fail;
use tap_views::{EncodeFault, LayoutFault};

fn prints<R: Abort, T: Display>(rt: &R, alloc: Global, fault: &T, text: &str) -> Result<(), Fail> {
    let printed = format!(in alloc; "{fault}")?;
    assert_eq!(rt; printed.as_str(), text);
    Ok(())
}

#[test]
fn faults_are_printed_with_their_numbers(rt: HostRuntime) -> Result<(), Fail> {
    let rows = [
        (
            LayoutFault::Short { have: 7 },
            "a header is cut off: 7 bytes are there",
        ),
        (LayoutFault::Magic, "neither TAP1 nor TAP2"),
        (LayoutFault::Flags, "unknown flags"),
        (
            LayoutFault::TooMany { count: 4_097 },
            "4097 taps in one batch",
        ),
        (
            LayoutFault::Length { want: 60, have: 36 },
            "a batch of 60 bytes is cut off: 36 are there",
        ),
        (
            LayoutFault::Moment { index: 3 },
            "tap 3 has a moment past the limit",
        ),
    ];
    for (fault, text) in rows {
        prints(&rt, rt.alloc(), &fault, text)?;
    }
    let rows = [
        (EncodeFault::TooMany, "more than 4096 taps"),
        (
            EncodeFault::Moment { index: 3 },
            "tap 3 has a moment past the limit",
        ),
        (EncodeFault::NoMemory, "out of memory"),
    ];
    for (fault, text) in rows {
        prints(&rt, rt.alloc(), &fault, text)?;
    }
    let fault = TableFault::Range { key: Key::Ceiling };
    prints(&rt, rt.alloc(), &fault, "Ceiling is out of range")
}
