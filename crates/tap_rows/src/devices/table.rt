//! Devices, and the validator of each.

ghost use Rattle.csv.specs.Records.{fields_of};
ghost use Rattle.std.specs.Prelude.{◌≡◌, ◌∷◌, ◌++◌, [], None, IfErr, IfOk, OnOk, option_map};
ghost use Rattle.std.specs.Prelude.{slice_get};
ghost use Rattle.tap_rows.specs.Devices.{Device, IsDeviceRow, devices_of, validator_of};
ghost use Rattle.tap_rows.specs.Numbering.{device_row, device_table_text, greatest, with_name};
ghost use Rattle.tap_rows.specs.inside.DeviceRows.{IsRowFault, IsRowOfNone};

use crate::agency::{Separator, field_in, text_of};
use crate::devices::fault::{DevicesFault, WrongDevice};
use crate::row::validator_in;
use csv::ByteRecord;
use indexmap::IndexMap;
use itoa::Buffer;
use std::alloc::{AllocError, Global};
use std::hash::RandomState;

/// Devices by their names, each with the number of its validator.
#[derive(Debug, Drop)]
pub struct DeviceTable {
    numbers: IndexMap<Vec<u8>, u32, RandomState>,
}

fn device_in(row: &ByteRecord) -> Result<(&[u8], u32), WrongDevice>
    ensures device { IfOk result
        (λ device. IsDeviceRow (fields_of row.now) (device.0.now, device.1)) }
    ensures wrong { IfErr result (IsRowOfNone (fields_of row.now)) }
{
    if row.len() != 2 {
        return Err(WrongDevice::Fields);
    }
    let name = field_in(row, 0);
    if name.is_empty() {
        return Err(WrongDevice::NoName);
    }
    let Some(number) = validator_in(field_in(row, 1)) else {
        return Err(WrongDevice::Validator);
    };
    Ok((name, number))
}

impl DeviceTable {
    /// No devices. `seed` is random, so that no file can choose names that are found slowly.
    pub fn new(alloc: Global, seed: RandomState) -> DeviceTable
        ensures { devices_of result ≡ [] }
    {
        DeviceTable {
            numbers: IndexMap::with_hasher(alloc, seed),
        }
    }

    /// The number of the validator of the device with this name, compared byte by byte.
    pub fn validator_of(&self, name: &[u8]) -> Option<u32>
        ensures { result ≡ validator_of (devices_of self.now) name.now }
    {
        self.numbers.get(name).copied()
    }

    pub(crate) fn add(
        &mut self,
        alloc: Global,
        number: u64,
        row: &ByteRecord,
    ) -> Result<(), DevicesFault>
        ensures added { OnOk result ((device : Device) × IsDeviceRow (fields_of row.now) device
            × (validator_of (devices_of self.old) device.0 ≡ None)
            × (devices_of self.new ≡ devices_of self.old ++ device ∷ [])) }
        ensures fault { IfErr result
            (IsRowFault (devices_of self.old) number (fields_of row.now)) }
    {
        let (name, validator) = match device_in(row) {
            Ok(device) => device,
            Err(wrong) => return Err(DevicesFault::Row { number, wrong }),
        };
        if self.validator_of(name).is_some() {
            let wrong = WrongDevice::Again;
            return Err(DevicesFault::Row { number, wrong });
        }
        let key = Vec::from_slice(alloc, name)?;
        self.numbers.insert(key, validator)?;
        Ok(())
    }

    /// The device at this index.
    fn device_at(&self, index: usize) -> Option<(&[u8], u32)>
        ensures { option_map (λ device. (device.0.now, device.1)) result
            ≡ slice_get (devices_of self.now) index }
    {
        match self.numbers.get_index(index) {
            Some((name, number)) => Some((name.as_slice(), *number)),
            None => None,
        }
    }

    fn greatest(&self) -> u32
        ensures { result ≡ greatest (devices_of self.now) }
    {
        let mut most = 0;
        for index in 0..self.numbers.len() {
            let Some((_, number)) = self.device_at(index) else {
                return most;
            };
            most = most.max(number);
        }
        most
    }

    /// Gives a device of this name the next number, unless it has one, or none is left.
    pub(crate) fn number(&mut self, alloc: Global, name: &[u8]) -> Result<(), AllocError>
        ensures { OnOk result
            (devices_of self.new ≡ with_name (devices_of self.old) name.now) }
    {
        if name.is_empty() || self.validator_of(name).is_some() {
            return Ok(());
        }
        let Some(next) = self.greatest().checked_add(1) else {
            return Ok(());
        };
        let key = Vec::from_slice(alloc, name)?;
        self.numbers.insert(key, next)?;
        Ok(())
    }
}

fn push_device(
    alloc: Global,
    name: &[u8],
    number: u32,
    text: &mut Vec<u8>,
) -> Result<(), AllocError>
    ensures { OnOk result (text.new.items ≡ text.old.items ++ device_row (name.now, number)) }
{
    let mut digits = Buffer::new();
    let mut row = ByteRecord::new(alloc);
    row.push_field(name)?;
    row.push_field(digits.format(number).as_bytes())?;
    text.extend_from_slice(&text_of(alloc, Separator { byte: b',' }, &row)?)
}

/// The device table of these devices, in the order in which they were added.
pub fn device_text(alloc: Global, devices: &DeviceTable) -> Result<Vec<u8>, AllocError>
    ensures { IfOk result (λ text. text.items ≡ device_table_text (devices_of devices.now)) }
{
    let mut text = Vec::from_slice(alloc, b"device,validator\n")?;
    for index in 0..devices.numbers.len() {
        let Some((name, number)) = devices.device_at(index) else {
            return Ok(text);
        };
        push_device(alloc, name, number, &mut text)?;
    }
    Ok(text)
}
