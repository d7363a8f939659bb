//! Damaged uploads through the whole service.

use crate::runs::{BUS, SUBWAY, end_of, run, tap_after};
use fare_service::{OpenGatekeeper, UploadEnd};
use std::alloc::Global;
use std::test::Fail;
use tap_views::{LayoutFault, encode};

/// Two taps, 64 bytes.
fn two_taps(alloc: Global) -> Result<Vec<u8>, Fail> {
    Ok(encode(
        alloc,
        &[tap_after(0xa1, SUBWAY, 0), tap_after(0xa1, BUS, 7_200_000)],
    )?)
}

/// How a file ends whose two batches have two taps and one, if it is cut to `bytes` bytes.
fn end_of_a_cut_file(bytes: usize) -> UploadEnd {
    let have = bytes as u64;
    let (taps, offset, fault) = match bytes {
        0 => return UploadEnd::Posted { taps: 0 },
        1..=7 => (0, 0, LayoutFault::Short { have }),
        8..=63 => (0, 0, LayoutFault::Length { want: 64, have }),
        64 => return UploadEnd::Posted { taps: 2 },
        65..=71 => (2, 64, LayoutFault::Short { have: have - 64 }),
        72..=99 => (
            2,
            64,
            LayoutFault::Length {
                want: 36,
                have: have - 64,
            },
        ),
        _ => return UploadEnd::Posted { taps: 3 },
    };
    UploadEnd::Refused {
        taps,
        offset,
        fault,
    }
}

/// Would catch an offset or a count that is one batch or one byte off in the service.
#[test]
fn a_file_cut_at_every_length(rt: HostRuntime) -> Result<(), Fail> {
    let alloc = rt.alloc();
    let mut file = two_taps(alloc)?;
    file.extend_from_slice(&encode(alloc, &[tap_after(0xa1, SUBWAY, 0)])?)?;
    assert_eq!(rt; file.len(), 100);
    let mut cut = Vec::new(alloc);
    for bytes in 0..file.len() {
        let mut left = Vec::new(alloc);
        left.extend_from_slice(&file[..bytes])?;
        cut.push(left)?;
    }
    cut.push(file)?;
    let outcome = run(&rt, alloc, cut.as_slice(), 8, 1, &OpenGatekeeper)?;
    for bytes in 0..=100u32 {
        assert_eq!(rt;
            end_of(&outcome, bytes),
            Some(end_of_a_cut_file(bytes as usize)),
            "{bytes} bytes"
        );
    }
    Ok(())
}

/// How a file of two taps ends in whose header this bit is turned.
fn end_of_a_turned_bit(byte: usize, bit: u32) -> UploadEnd {
    let turned = 1u64 << (bit % 8);
    let count = match byte {
        4 => 2 | turned << 8,
        _ => 2 ^ turned,
    };
    let (offset, fault) = match byte {
        0..=3 => (0, LayoutFault::Magic),
        4 | 5 if count == 0 => (8, LayoutFault::Magic),
        4 | 5 if count > 4096 => (0, LayoutFault::TooMany { count }),
        4 | 5 => {
            let want = 8 + 28 * count;
            (0, LayoutFault::Length { want, have: 64 })
        }
        _ => (0, LayoutFault::Flags),
    };
    UploadEnd::Refused {
        taps: 0,
        offset,
        fault,
    }
}

/// Would catch a service that posts the taps of a batch whose header is damaged.
#[test]
fn every_bit_of_a_header_turned(rt: HostRuntime) -> Result<(), Fail> {
    let alloc = rt.alloc();
    let mut files = Vec::new(alloc);
    for byte in 0..8usize {
        for bit in 0..8u32 {
            let mut file = two_taps(alloc)?;
            if let Some(turned) = file.get_mut(byte) {
                *turned ^= 1 << bit;
            }
            files.push(file)?;
        }
    }
    let outcome = run(&rt, alloc, files.as_slice(), 8, 1, &OpenGatekeeper)?;
    for byte in 0..8usize {
        for bit in 0..8u32 {
            let wanted = end_of_a_turned_bit(byte, bit);
            assert_eq!(rt;
                end_of(&outcome, byte as u32 * 8 + bit),
                Some(wanted),
                "bit {bit} of {byte}"
            );
        }
    }
    assert_eq!(rt; outcome.totals().taps, 0);
    Ok(())
}
