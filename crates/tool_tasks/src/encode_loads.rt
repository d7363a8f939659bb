//! What `encode` of an agency's own CSVs loads, in order: a device table, a key, a zone, the CSVs.
ghost use Rattle.frame.specs.Outsides.{Leaves};
ghost use Rattle.jiff_tz.specs.{PosixReader.read_whole, PosixText.tz_view};
ghost use Rattle.std.specs.Prelude.{◌≡◌, ℕ, Bool, IfErr, IfOk, List, map, option_map, string_bytes};
ghost use Rattle.tool_tasks.specs.EncodeRows.{AreRead, HasTried, devices_word, loads_in, names_of};
ghost use Rattle.tool_tasks.specs.EncodeRows.{word_in};
ghost use Rattle.tool_tasks.specs.EncodeTables.{is_name_byte, is_zone_name, zone_file, zone_loaded};
ghost use Rattle.tool_tasks.specs.inside.{EncodeRows.texts_in, Loads.IsNameIn, Loads.StopsLoading};
ghost use Rattle.world.specs.{Origins.with_loads, Run.Load, Run.Run};

use crate::counted::Counted;
use crate::fault::Fault;
use crate::loads::{load_all, load_word};
use crate::stops::Halt;
use frame::Outside;
use jiff_tz::posix;
use std::alloc::{AllocError, Global};
use tool_words::RowsWords;
use world::{LoadFault, World};

/// What was loaded; empty texts of what has no word, and of a device table that is not there.
#[derive(Drop)]
pub(crate) struct Texts {
    pub(crate) devices: Vec<u8>,
    pub(crate) key: Vec<u8>,
    pub(crate) zone: Vec<u8>,
    pub(crate) csvs: Vec<Vec<u8>>,
}

/// The device table, and whether it is there: one that is made need not be.
fn load_devices<'a, W: World>(
    alloc: Global,
    words: &RowsWords<'a>,
    world: &mut W,
) -> Result<(bool, Vec<u8>), Halt<'a>>
    ensures loaded { IfOk result (λ found. (started : Run)
        × HasTried words.now found.0 (W.run world.old) started × (W.run world.new
        ≡ with_loads started (loads_in (devices_word words.now found.0) found.1.items))) }
    ensures stopped { (names : List (List ℕ)) → IsNameIn names (word_in words.now.devices)
        → IfErr result (λ halt. Leaves names halt.0 (W.run world.old) (W.run world.new)) }
{
    match words.devices {
        None => Ok((true, Vec::new(alloc))),
        Some(name) => match load_word(world, name) {
            Ok(text) => Ok((true, text)),
            Err(LoadFault::Unread) if words.makes_devices => Ok((false, Vec::new(alloc))),
            Err(why) => Err(Halt(Outside::Unread(why), Fault::of_load(name, why))),
        },
    }
}

fn is_name_byte(byte: u8) -> bool
    ensures { result ≡ is_name_byte byte }
{
    byte.is_ascii_alphanumeric() || byte == b'_' || byte == b'+' || byte == b'-' || byte == b'/'
}

/// So that it is a file below the folder of zones.
pub(crate) fn is_zone_name(word: &str) -> bool
    ensures { result ≡ is_zone_name word.now }
{
    word.as_bytes().iter().all(|byte| is_name_byte(*byte))
}

fn zone_path(alloc: Global, word: &str) -> Result<String, AllocError>
    ensures { IfOk result (λ path. string_bytes path ≡ zone_file word.now) }
{
    format!(in alloc; "/usr/share/zoneinfo/{word}")
}

pub(crate) fn rule_of(word: &str) -> Option<posix::TimeZone>
    ensures { option_map tz_view result ≡ read_whole word.now }
{
    match posix::TimeZone::parse(word.as_bytes()) {
        Ok(rule) => Some(rule),
        Err(_) => None,
    }
}

/// The file that is loaded for the zone.
fn zone_loaded(alloc: Global, zone: Option<&str>) -> Result<Option<String>, AllocError>
    ensures { IfOk result (λ path. option_map string_bytes path ≡ zone_loaded (word_in zone.entry)) }
{
    match zone {
        Some(word) if rule_of(word).is_none() && is_zone_name(word) => {
            Ok(Some(zone_path(alloc, word)?))
        }
        _ => Ok(None),
    }
}

fn name_in<'p>(path: &'p Option<String>) -> Option<&'p str>
    ensures { word_in result ≡ option_map string_bytes path.entry.now }
{
    match path {
        Some(path) => Some(path.as_str()),
        None => None,
    }
}

/// The line of a zone whose file was not loaded.
fn zone_line<'a>(word: Option<&'a str>, why: LoadFault) -> Fault<'a> {
    let word = word.unwrap_or("");
    match why {
        LoadFault::Unread => Fault::Zone(word),
        LoadFault::TooLong => Fault::ZoneFile(word),
        LoadFault::NoMemory => Fault::NoMemory,
    }
}

/// All bytes of the file that the word names, if there is one.
#[tactic(auto, using(world::proofs::Laws::no_loads))]
fn load_named<W: World>(
    alloc: Global,
    name: Option<&str>,
    world: &mut W,
) -> Result<Vec<u8>, LoadFault>
    ensures loaded { IfOk result (λ text. W.run world.new
        ≡ with_loads (W.run world.old) (loads_in (word_in name.entry) text.items)) }
    ensures refused { (names : List (List ℕ)) → IsNameIn names (word_in name.entry) → IfErr result
        (λ why. Leaves names (Outside.Unread why) (W.run world.old) (W.run world.new)) }
{
    match name {
        Some(name) => load_word(world, name),
        None => Ok(Vec::new(alloc)),
    }
}

/// All that the words name, and whether the device table is there.
pub(crate) fn load_texts<'a, W: World + Counted>(
    alloc: Global,
    words: &RowsWords<'a>,
    csvs: &[&'a str],
    world: &mut W,
) -> Result<(bool, Texts), Halt<'a>>
    ensures loaded { IfOk result (λ found. (started : Run) × (loads : List Load)
        × HasTried words.now found.0 (W.run world.old) started × (W.run world.new
        ≡ with_loads started loads) × AreRead words.now (map (λ w. w.now) csvs.now) found.0
        (texts_in found.1) loads) }
    ensures stopped { IfErr result (λ halt. (is_there : Bool) × (started : Run)
        × HasTried words.now is_there (W.run world.old) started × StopsLoading
        (names_of words.now (map (λ w. w.now) csvs.now)) halt.0 started (W.run world.new)) }
{
    let path = zone_loaded(alloc, words.zone)?;
    let found = load_devices(alloc, words, world)?;
    let key = match load_named(alloc, words.key, world) {
        Ok(key) => key,
        Err(why) => {
            let line = Fault::of_load(words.key.unwrap_or(""), why);
            return Err(Halt(Outside::Unread(why), line));
        }
    };
    let zone = match load_named(alloc, name_in(&path), world) {
        Ok(zone) => zone,
        Err(why) => return Err(Halt(Outside::Unread(why), zone_line(words.zone, why))),
    };
    let csvs = load_all(alloc, csvs, true, world)?;
    let (is_there, devices) = found;
    let texts = Texts {
        devices,
        key,
        zone,
        csvs,
    };
    Ok((is_there, texts))
}
