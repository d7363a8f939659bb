//! How `encode` reads an agency's own CSVs: the devices, the key and the zone of what it loaded.
ghost use Rattle.frame.specs.Outsides.{Stops};
ghost use Rattle.std.specs.Prelude.{◌≡◌, ℕ, Bool, Err, IfErr, IfOk, List, MatchResult, OnOk};
ghost use Rattle.std.specs.Prelude.{option_map};
ghost use Rattle.tap_rows.specs.{Devices.devices_of, Keys.key_of, Numbering.IsNumbered};
ghost use Rattle.tap_rows.specs.declared.agency.choice.Choice.{Choice as AChoice};
ghost use Rattle.tap_rows.specs.declared.agency.key.WrongKey.{WrongKey};
ghost use Rattle.tool_tasks.specs.EncodeRows.{AreOldDevices, AreUsedDevices, Chain, HasDevices};
ghost use Rattle.tool_tasks.specs.EncodeRows.{IsChoice, IsWrongTable, IsWrongText};
ghost use Rattle.tool_tasks.specs.EncodeRows.{Texts as TextsRead, word_in};
ghost use Rattle.tool_tasks.specs.EncodeTables.{HasNoZone, IsClock, IsKey};
ghost use Rattle.tool_tasks.specs.inside.EncodeRows.{IsPrepared, IsTable, csvs_of, texts_in};

use crate::encode_csvs::prepare_csvs;
use crate::encode_loads::{Texts, is_zone_name, rule_of};
use crate::fault::Fault;
use crate::prepared::Prepared;
use crate::stops::Halt;
use crate::wrong_tables::{fault_of_devices, key_text};
use frame::Outside;
use jiff_core::Error;
use jiff_tz::{TimeZone, Tzif};
use std::alloc::{AllocError, Global};
use std::hash::RandomState;
use tap_rows::{
    Choice, DeviceTable, DevicesFault, LocalClock, TokenKey, number_devices, read_devices,
};
use tool_words::RowsWords;

/// The devices of the table, if it is there.
fn old_devices<'a>(
    alloc: Global,
    seed: RandomState,
    words: &RowsWords<'a>,
    is_there: bool,
    name: &'a str,
    text: &[u8],
) -> Result<DeviceTable, Halt<'a>>
    ensures old { IfOk result (λ table.
        AreOldDevices is_there words.now.columns.separator text.now (devices_of table)) }
    ensures stopped { IfErr result (λ halt.
        Stops (IsWrongTable is_there words.now.columns.separator text.now) halt.0) }
{
    if !is_there {
        return Ok(DeviceTable::new(alloc, seed));
    }
    match read_devices(alloc, seed, words.columns.separator, text) {
        Ok(table) => Ok(table),
        Err(DevicesFault::NoMemory) => Err(Halt(Outside::NoMemory, Fault::NoMemory)),
        Err(fault) => Err(Halt(Outside::Wrong, fault_of_devices(name, fault))),
    }
}

fn number_each(
    alloc: Global,
    choice: &Choice<'_>,
    csvs: &[Vec<u8>],
    devices: &mut DeviceTable,
) -> Result<(), AllocError>
    ensures { OnOk result (Chain (IsNumbered choice.now) (csvs_of csvs.now)
        (devices_of devices.old) (devices_of devices.new)) }
{
    for number in 0..csvs.len() {
        let csv = &csvs[number];
        number_devices(alloc, choice, csv, devices)?;
    }
    Ok(())
}

/// Numbers the devices of the rows, if the device table is made.
fn number_if_made(
    alloc: Global,
    words: &RowsWords<'_>,
    csvs: &[Vec<u8>],
    devices: &mut DeviceTable,
) -> Result<(), AllocError>
    ensures { OnOk result (AreUsedDevices words.now.makes_devices words.now.columns
        (csvs_of csvs.now) (devices_of devices.old) (devices_of devices.new)) }
{
    if !words.makes_devices {
        return Ok(());
    }
    let choice = Choice {
        columns: &words.columns,
        devices: None,
        key: None,
        clock: None,
    };
    number_each(alloc, &choice, csvs, devices)
}

/// The devices, if they have a word. `seed` is random, so that no file can choose names of devices
/// that are found slowly.
fn used_devices<'a>(
    alloc: Global,
    seed: RandomState,
    words: &RowsWords<'a>,
    is_there: bool,
    texts: &Texts,
) -> Result<Option<DeviceTable>, Halt<'a>>
    ensures used { IfOk result (λ table. HasDevices words.now is_there (texts_in texts.now)
        (option_map devices_of table)) }
    ensures stopped { IfErr result (λ halt. Stops (IsWrongTable is_there
        words.now.columns.separator texts.now.devices.items) halt.0) }
{
    let Some(name) = words.devices else {
        return Ok(None);
    };
    let mut table = old_devices(alloc, seed, words, is_there, name, &texts.devices)?;
    number_if_made(alloc, words, &texts.csvs, &mut table)?;
    Ok(Some(table))
}

/// The key, if it has a word.
fn key_in<'a>(words: &RowsWords<'a>, text: &[u8]) -> Result<Option<TokenKey>, Halt<'a>>
    ensures key { IfOk result (λ key.
        IsKey (word_in words.now.key) text.now (option_map (λ k. k.block) key)) }
    ensures stopped { IfErr result
        (λ halt. Stops ((wrong : WrongKey) × (key_of text.now ≡ Err wrong)) halt.0) }
{
    match words.key {
        None => Ok(None),
        Some(name) => match TokenKey::of_file(text) {
            Ok(key) => Ok(Some(key)),
            Err(wrong) => Err(Halt(Outside::Wrong, Fault::Key(name, key_text(wrong)))),
        },
    }
}

/// The table of the zone, if it has a word that is no rule.
fn table_in<'a>(alloc: Global, words: &RowsWords<'a>, text: &[u8]) -> Result<Option<Tzif>, Halt<'a>>
    ensures table { IfOk result (IsTable (word_in words.now.zone) text.now) }
    ensures stopped { IfErr result
        (λ halt. Stops (HasNoZone (word_in words.now.zone) text.now) halt.0) }
{
    match words.zone {
        None => Ok(None),
        Some(name) => match rule_of(name) {
            Some(_) => Ok(None),
            None if !is_zone_name(name) => Err(Halt(Outside::Wrong, Fault::Zone(name))),
            None => match Tzif::parse(alloc, None, text) {
                Ok(table) => Ok(Some(table)),
                Err(Error::Tzif(_)) => Err(Halt(Outside::Wrong, Fault::ZoneFile(name))),
                Err(_) => Err(Halt(Outside::NoMemory, Fault::NoMemory)),
            },
        },
    }
}

/// The clock of the zone, if it has a word: of this table if that is no rule.
fn clock_of<'c>(words: &RowsWords<'_>, table: Option<&'c Tzif>) -> Option<LocalClock<'c>>
    ensures { (text : List ℕ) → IsTable (word_in words.now.zone) text
        (option_map (λ t. t.now) table.entry)
        → IsClock (word_in words.now.zone) words.now.fold text result }
{
    let fold = words.fold;
    match (words.zone, table) {
        (None, _) => None,
        (Some(_), Some(table)) => {
            let zone = TimeZone::Tzif(table);
            Some(LocalClock { zone, fold })
        }
        (Some(name), None) => match rule_of(name) {
            Some(rule) => {
                let zone = TimeZone::Posix(rule);
                Some(LocalClock { zone, fold })
            }
            None => None,
        },
    }
}

/// The choice that the words make, with what was read.
fn choice<'c>(
    words: &'c RowsWords<'_>,
    devices: Option<&'c DeviceTable>,
    key: Option<&'c TokenKey>,
    clock: Option<LocalClock<'c>>,
) -> Choice<'c>
    ensures { (is_there : Bool) (texts : TextsRead) → HasDevices words.entry.now is_there texts
        (option_map (λ d. devices_of d.now) devices.entry)
        → IsKey (word_in words.entry.now.key) texts.key (option_map (λ k. k.now.block) key.entry)
        → IsClock (word_in words.entry.now.zone) words.entry.now.fold texts.zone clock.entry
        → IsChoice words.entry.now is_there texts result }
{
    Choice {
        columns: &words.columns,
        devices,
        key,
        clock,
    }
}

/// What is written, made and noted of these texts, the CSVs being of these names. What else there is
/// to say of a wrong one goes to `more`.
pub(crate) fn prepare<'a>(
    alloc: Global,
    seed: RandomState,
    words: &RowsWords<'a>,
    names: &[&'a str],
    is_there: bool,
    texts: &Texts,
    more: &mut String,
) -> Result<Prepared<'a>, Halt<'a>>
    ensures { MatchResult result (λ prepared. (choice : AChoice)
        × IsChoice words.now is_there (texts_in texts.now) choice
        × IsPrepared words.now choice (texts_in texts.now).csvs prepared)
        (λ halt. Stops (IsWrongText words.now is_there (texts_in texts.now)) halt.0) }
{
    let devices = used_devices(alloc, seed, words, is_there, texts)?;
    let key = key_in(words, &texts.key)?;
    let table = table_in(alloc, words, &texts.zone)?;
    let clock = clock_of(words, table.as_ref());
    let choice = choice(words, devices.as_ref(), key.as_ref(), clock);
    prepare_csvs(alloc, words, names, is_there, &choice, &texts.csvs, more)
}
