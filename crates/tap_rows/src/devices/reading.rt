//! A device table, read from its file.

ghost use Rattle.std.specs.Prelude.{◌↔◌, IfErr, IfOk, IsTrue};
ghost use Rattle.csv.specs.Records.{fields_of};
ghost use Rattle.tap_rows.specs.Devices.{AreDevices, AreDevicesBy, IsDevicesFault, devices_of};
ghost use Rattle.tap_rows.specs.inside.DeviceRows.{IsFaultBy, IsHeadRow};

use crate::agency::{Separator, has_at, next_record, records_of};
use crate::devices::fault::DevicesFault;
use crate::devices::table::DeviceTable;
use csv::ByteRecord;
use std::alloc::Global;
use std::hash::RandomState;

fn is_head(row: &ByteRecord) -> bool
    ensures { IsTrue result ↔ IsHeadRow (fields_of row.now) }
{
    row.len() == 2 && has_at(row, 0, b"device") && has_at(row, 1, b"validator")
}

fn read_by(
    alloc: Global,
    seed: RandomState,
    separator: Separator,
    text: &[u8],
) -> Result<DeviceTable, DevicesFault>
    ensures table { IfOk result (λ table. AreDevicesBy separator text.now (devices_of table)) }
    ensures fault { IfErr result (IsFaultBy separator text.now) }
{
    let mut reader = records_of(alloc, separator, text);
    let mut row = ByteRecord::new(alloc);
    let has_head = next_record(&mut reader, &mut row)?;
    if !has_head {
        return Err(DevicesFault::Head);
    }
    if !is_head(&row) {
        return Err(DevicesFault::Head);
    }
    let mut table = DeviceTable::new(alloc, seed);
    for count in 0..u64::MAX - 2 {
        let has_row = next_record(&mut reader, &mut row)?;
        if !has_row {
            return Ok(table);
        }
        table.add(alloc, count + 2, &row)?;
    }
    Err(DevicesFault::NoMemory)
}

/// The device table of a text: CSV with the head `device,validator`, and a row for each device.
/// `separator`, of the agency's rows, is also tried on the head; else fields are between commas. A
/// byte order mark is skipped. An error is the first wrong row, the head, or an allocation failure.
pub fn read_devices(
    alloc: Global,
    seed: RandomState,
    separator: Separator,
    text: &[u8],
) -> Result<DeviceTable, DevicesFault>
    ensures table { IfOk result (λ table. AreDevices separator text.now (devices_of table)) }
    ensures fault { IfErr result (IsDevicesFault separator text.now) }
{
    match read_by(alloc, seed, separator, text) {
        Ok(table) => Ok(table),
        Err(fault) => match fault {
            DevicesFault::Head => read_by(alloc, seed, Separator { byte: b',' }, text),
            _ => Err(fault),
        },
    }
}
