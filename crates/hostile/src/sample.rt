//! The sample table, the uploads of the example, and where a window ends.

use crate::stop::Stop;
use fare_table::{FareTable, ReadFareTable};
use sample_table::{NEW_YORK, rides, strays};
use std::alloc::Global;
use tap_views::encode;

/// Where a window that starts with the day ends: 2024-03-15T04:00Z, midnight in New York.
pub(crate) const UNTIL: u64 = 1_710_475_200_000;

pub(crate) fn table(alloc: Global) -> Result<FareTable, Stop> {
    Ok(FareTable::read(alloc, NEW_YORK.as_bytes())?)
}

pub(crate) fn uploads(alloc: Global) -> Result<Vec<Vec<u8>>, Stop> {
    let mut uploads = Vec::new(alloc);
    uploads.push(encode(alloc, &rides())?)?;
    uploads.push(encode(alloc, &strays())?)?;
    Ok(uploads)
}

/// The example's uploads as sorted files: the second one's taps are in order of time.
pub(crate) fn sorted_files(alloc: Global) -> Result<(Vec<u8>, Vec<u8>), Stop> {
    let [late, early] = strays();
    Ok((encode(alloc, &rides())?, encode(alloc, &[early, late])?))
}

/// The example's taps as one sorted file.
pub(crate) fn merged_file(alloc: Global) -> Result<Vec<u8>, Stop> {
    let ([first, second, third, fourth], [late, early]) = (rides(), strays());
    Ok(encode(alloc, &[first, second, third, fourth, early, late])?)
}
