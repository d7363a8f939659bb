//! Tables of taps, as uploads.

ghost use Rattle.std.specs.Prelude.{IfErr, IfOk};
ghost use Rattle.tap_rows.specs.TapTables.{IsEncoded, IsRowsFault};

use crate::fault::RowsFault;
use crate::growing::Growing;
use crate::read::{is_head, split_line};
use crate::row::tap_of;
use std::alloc::Global;

/// The upload of a table, in `TAP1` batches of 4,096 taps; or its first line that is wrong, unless
/// an allocation failed.
pub fn encode(alloc: Global, table: &[u8]) -> Result<Vec<u8>, RowsFault>
    ensures upload { IfOk result (λ upload. IsEncoded table.now upload.items) }
    ensures fault { IfErr result (IsRowsFault table.now) }
{
    let (head, rows) = split_line(table);
    if !is_head(head) {
        return Err(RowsFault::Head);
    }
    let mut left = rows;
    let mut growing = Growing::new(alloc)?;
    for number in 2..u64::MAX {
        if left.is_empty() {
            return Ok(growing.finish()?);
        }
        let (line, rest) = split_line(left);
        match tap_of(line) {
            Ok(tap) => growing.push(tap)?,
            Err(column) => return Err(RowsFault::Row { number, column }),
        }
        left = rest;
    }
    // no slice has so many lines
    Err(RowsFault::NoMemory)
}
