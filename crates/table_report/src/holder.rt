//! The tables of a text that hold keys, and which keys have a meaning in each.

use fare_table::Key;

/// A table of the text, which holds keys.
#[derive(Clone, Copy, Debug, PartialEq, Eq)]
pub enum KeyHolder {
    Top,
    /// The class at this place in the order of the names.
    Class(usize),
    /// The cap at this place in the order of the names.
    Cap(usize),
    /// The element of `transfers` at this place.
    Pair(usize),
    /// The element of `validators` at this place.
    Range(usize),
}

const TOP: [Key; 10] = [
    Key::Modes,
    Key::Transfers,
    Key::Caps,
    Key::Classes,
    Key::DefaultClass,
    Key::Validators,
    Key::Riders,
    Key::Zone,
    Key::Window,
    Key::DayStarts,
];

const CLASS: [Key; 7] = [
    Key::Fare,
    Key::Rides,
    Key::Ceiling,
    Key::Fares,
    Key::ClassCaps,
    Key::RideTransfers,
    Key::TransferMinutes,
];

const CAP: [Key; 2] = [Key::CapWindow, Key::CapModes];

const PAIR: [Key; 3] = [Key::From, Key::To, Key::Pays];

const RANGE: [Key; 3] = [Key::First, Key::Last, Key::ModeName];

pub(crate) fn known_keys(holder: KeyHolder) -> &'static [Key] {
    match holder {
        KeyHolder::Top => &TOP,
        KeyHolder::Class(_) => &CLASS,
        KeyHolder::Cap(_) => &CAP,
        KeyHolder::Pair(_) => &PAIR,
        KeyHolder::Range(_) => &RANGE,
    }
}

pub(crate) fn has_meaning(holder: KeyHolder, key: &str) -> bool {
    known_keys(holder).iter().any(|known| key == known.word())
}
