//! The devices of rows, each with the next number.

ghost use Rattle.csv.specs.Records.{fields_of};
ghost use Rattle.std.specs.Prelude.{◌≡◌, OnOk};
ghost use Rattle.tap_rows.specs.{Devices.devices_of, Numbering.IsNumbered, Numbering.with_row};
ghost use Rattle.tap_rows.specs.inside.Positions.{layout_of};

use crate::agency::{
    AgencyFault, Choice, Positions, field_in, is_kept, next_record, positions_of, records_of,
};
use crate::devices::table::DeviceTable;
use csv::ByteRecord;
use std::alloc::{AllocError, Global};

fn number_row(
    alloc: Global,
    positions: &Positions<'_>,
    row: &ByteRecord,
    devices: &mut DeviceTable,
) -> Result<(), AllocError>
    ensures { OnOk result (devices_of devices.new
        ≡ with_row (layout_of positions.now) (devices_of devices.old) (fields_of row.now)) }
{
    if row.len() == positions.width && is_kept(positions, row) {
        return devices.number(alloc, field_in(row, positions.validator));
    }
    Ok(())
}

/// Gives each device of a row that the choice keeps a number, the greatest and one more, in the
/// order of the rows, unless it has one. A text that lacks a column has no such rows.
pub fn number_devices(
    alloc: Global,
    choice: &Choice<'_>,
    text: &[u8],
    devices: &mut DeviceTable,
) -> Result<(), AllocError>
    ensures { OnOk result (IsNumbered choice.now text.now (devices_of devices.old)
        (devices_of devices.new)) }
{
    let mut reader = records_of(alloc, choice.columns.separator, text);
    let mut row = ByteRecord::new(alloc);
    let has_head = next_record(&mut reader, &mut row)?;
    if !has_head {
        return Ok(());
    }
    let positions = match positions_of(alloc, choice, &row) {
        Ok(positions) => positions,
        Err(AgencyFault::Column(_)) => return Ok(()),
        Err(AgencyFault::NoMemory) => return Err(AllocError),
    };
    for _count in 0..u64::MAX {
        let has_row = next_record(&mut reader, &mut row)?;
        if !has_row {
            return Ok(());
        }
        number_row(alloc, &positions, &row, devices)?;
    }
    // no slice has so many rows
    Err(AllocError)
}
