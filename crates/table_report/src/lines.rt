//! The lines of a table without a fault.

ghost use Rattle.tariffs.specs.Terms.{IsBoundedClass};

use crate::clocks::push_changes;
use crate::names::{class_name, mode_name};
use crate::paths::Key;
use crate::prices::{push_fares, push_prices, push_ride_transfers};
use crate::report::Wanted;
use fare_table::{Class, FareTable, Terms};
use fare_texts::write_moment;
use jiff::Timestamp;
use std::alloc::{AllocError, Global};
use tariffs::Pays;
use toml::Table;

/// The table at a key, or `None` if the key is not there or is not a table.
fn table_at<'t>(tree: &'t Table, key: &str) -> Option<&'t Table> {
    tree.get(key)?.as_table()
}

fn push_zone(text: &mut String, fares: &FareTable, from: Timestamp) -> Result<(), AllocError> {
    match fares.zone_text() {
        Some(zone) => {
            write!(text, "zone {zone}\n")?;
            push_changes(text, zone, from)
        }
        None => text.push_str("zone none\n"),
    }
}

fn push_mode(text: &mut String, fares: &FareTable, position: usize) -> Result<(), AllocError> {
    let mut count = 0u64;
    let mut validators = 0u64;
    for (first, rest) in fares.ranges() {
        if rest.mode as usize == position {
            count = count.saturating_add(1);
            let more = u64::from(rest.last.saturating_sub(*first)).saturating_add(1);
            validators = validators.saturating_add(more);
        }
    }
    let name = mode_name(fares, position);
    write!(text, "mode {name} ranges {count} validators {validators}\n")
}

fn push_modes(text: &mut String, fares: &FareTable) -> Result<(), AllocError> {
    let count = fares.mode_names().len();
    write!(text, "modes {count}\n")?;
    for position in 0..count {
        push_mode(text, fares, position)?;
    }
    Ok(())
}

/// What a transfer pays, if it is not free.
fn pays_of(fares: &FareTable, from: u8, to: u8) -> Option<Pays> {
    for price in fares.prices() {
        if price.from == from && price.to == to {
            return Some(price.pays);
        }
    }
    None
}

/// A pair of modes, and what it pays.
fn push_transfer(text: &mut String, fares: &FareTable, from: u8, to: u8) -> Result<(), AllocError> {
    let first = mode_name(fares, from as usize);
    let second = mode_name(fares, to as usize);
    write!(text, "transfer {first} {second}")?;
    match pays_of(fares, from, to) {
        Some(Pays::More { cents }) => write!(text, " pays {cents}\n"),
        Some(Pays::Difference) => text.push_str(" pays difference\n"),
        None => text.push_str("\n"),
    }
}

/// Each pair of modes once.
fn push_transfers(text: &mut String, fares: &FareTable) -> Result<(), AllocError> {
    let pairs = fares.pairs();
    let count = pairs.len();
    write!(text, "transfers {count}\n")?;
    for (from, to) in pairs {
        push_transfer(text, fares, *from, *to)?;
    }
    Ok(())
}

/// Each cap with its window and the modes that it counts.
fn push_caps(text: &mut String, tree: &Table, fares: &FareTable) -> Result<(), AllocError> {
    let Some(caps) = table_at(tree, "caps") else {
        return Ok(());
    };
    let count = fares.cap_names().len();
    write!(text, "caps {count}\n")?;
    for (position, (name, value)) in caps.iter().enumerate() {
        let window = match value.as_table() {
            Some(keys) => text_at(keys, "window"),
            None => "",
        };
        write!(text, "cap {name} window {window} modes")?;
        push_counted(text, fares, position)?;
        text.push_str("\n")?;
    }
    Ok(())
}

fn text_at<'t>(keys: &'t Table, key: &str) -> &'t str {
    match keys.get(key) {
        Some(value) => value.as_str().unwrap_or(""),
        None => "",
    }
}

fn push_counted(text: &mut String, fares: &FareTable, cap: usize) -> Result<(), AllocError> {
    let Some(cap) = fares.caps().get(cap) else {
        return Ok(());
    };
    for (position, mode) in fares.mode_names().iter().enumerate() {
        if let Some(true) = cap.counts.get(position) {
            write!(text, " {mode}")?;
        }
    }
    Ok(())
}

/// The ceilings that a class names, by the names of the caps.
fn push_ceilings(text: &mut String, name: &str, keys: &Table) -> Result<(), AllocError> {
    let Some(caps) = table_at(keys, "caps") else {
        return Ok(());
    };
    for (cap, value) in caps {
        let cents = value.as_integer().unwrap_or(0);
        write!(text, "ceiling {name} {cap} cents {cents}\n")?;
    }
    Ok(())
}

/// By the index of each class.
fn riders_of(alloc: Global, fares: &FareTable) -> Result<Vec<u64>, AllocError> {
    let mut counts = Vec::new(alloc);
    for _class in fares.classes() {
        counts.push(0u64)?;
    }
    for class in fares.riders().values() {
        if let Some(count) = counts.get_mut(*class as usize) {
            *count = count.saturating_add(1);
        }
    }
    Ok(counts)
}

/// Only the keys of its text say whether it names fares of its own, or what a ride gives.
fn push_class(
    alloc: Global,
    text: &mut String,
    fares: &FareTable,
    riders: u64,
    name: &str,
    class: &Class,
    keys: Option<&Table>,
) -> Result<(), AllocError>
    requires { IsBoundedClass class.now }
{
    let Terms {
        fare,
        rides,
        ceiling,
    } = class.terms;
    let name = format!(in alloc; "{}", Key(name))?;
    let name = name.as_str();
    write!(
        text,
        "class {name} fare {fare} rides {rides} ceiling {ceiling} riders {riders}\n"
    )?;
    let Some(keys) = keys else {
        return push_prices(text, name, class.terms);
    };
    match table_at(keys, "fares") {
        Some(named) => push_fares(text, name, fares, class, named)?,
        None => push_prices(text, name, class.terms)?,
    }
    push_ceilings(text, name, keys)?;
    push_ride_transfers(text, name, class, keys)
}

fn push_classes(
    alloc: Global,
    text: &mut String,
    tree: &Table,
    fares: &FareTable,
) -> Result<(), AllocError> {
    let counts = riders_of(alloc, fares)?;
    let classes = fares.classes();
    let count = classes.len();
    write!(text, "classes {count}\n")?;
    for position in 0..count {
        let class = &classes[position];
        let name = class_name(fares, position);
        let riders = match counts.get(position) {
            Some(count) => *count,
            None => 0,
        };
        let keys = match table_at(tree, "classes") {
            Some(classes) => table_at(classes, name),
            None => None,
        };
        push_class(alloc, text, fares, riders, name, class, keys)?;
    }
    let name = Key(class_name(fares, fares.default_class() as usize));
    write!(text, "default {name}\n")
}

/// Appends the line of the numbers from one to before another, which are in no range.
fn push_gap(text: &mut String, first: u64, next: u64) -> Result<(), AllocError> {
    if first >= next {
        return Ok(());
    }
    let last = next.saturating_sub(1);
    write!(text, "gap {first} {last}\n")
}

fn push_ranges(text: &mut String, fares: &FareTable) -> Result<(), AllocError> {
    let ranges = fares.ranges();
    let count = ranges.len();
    write!(text, "ranges {count}\n")?;
    let mut next = 0u64;
    for (first, rest) in ranges {
        push_gap(text, next, u64::from(*first))?;
        let last = rest.last;
        let mode = mode_name(fares, rest.mode as usize);
        write!(text, "range {first} {last} {mode}\n")?;
        next = u64::from(last).saturating_add(1);
    }
    push_gap(text, next, u64::from(u32::MAX).saturating_add(1))
}

/// Each rider has a line if that is requested, in the order of the keys of the text.
fn push_riders(
    text: &mut String,
    tree: &Table,
    fares: &FareTable,
    has_each: bool,
) -> Result<(), AllocError> {
    let count = fares.riders().len();
    write!(text, "riders {count}\n")?;
    if !has_each {
        return Ok(());
    }
    let Some(riders) = table_at(tree, "riders") else {
        return Ok(());
    };
    for (token, value) in riders {
        text.push_str("rider ")?;
        for letter in token.chars() {
            text.push(letter.to_ascii_lowercase())?;
        }
        let class = Key(value.as_str().unwrap_or(""));
        write!(text, " {class}\n")?;
    }
    Ok(())
}

/// Appends a line of the text at a key, if the key is there.
fn push_text_at(text: &mut String, tree: &Table, key: &str) -> Result<(), AllocError> {
    let Some(value) = tree.get(key) else {
        return Ok(());
    };
    match value.as_str() {
        Some(value) => write!(text, "{key} {value}\n"),
        None => Ok(()),
    }
}

/// Appends the first line: the name of the table's file and, if it follows other tables, the moment
/// from which it is valid.
fn push_name(text: &mut String, name: &str, valid_from: Option<u64>) -> Result<(), AllocError> {
    let Some(from) = valid_from else {
        write!(text, "table {name}\n")?;
        return Ok(());
    };
    write!(text, "table {name} from ")?;
    write_moment(text, from)?;
    text.push_str("\n")?;
    Ok(())
}

/// The lines of a table without a fault, the last with the number of its warnings.
pub(crate) fn lines_of(
    alloc: Global,
    wanted: &Wanted<'_>,
    tree: &Table,
    fares: &FareTable,
    warnings: usize,
) -> Result<String, AllocError> {
    let mut text = String::new(alloc);
    push_name(&mut text, wanted.name, wanted.valid_from)?;
    push_zone(&mut text, fares, wanted.from)?;
    push_text_at(&mut text, tree, "window")?;
    push_text_at(&mut text, tree, "day_starts")?;
    push_modes(&mut text, fares)?;
    push_transfers(&mut text, fares)?;
    push_caps(&mut text, tree, fares)?;
    push_classes(alloc, &mut text, tree, fares)?;
    push_ranges(&mut text, fares)?;
    push_riders(&mut text, tree, fares, wanted.has_riders)?;
    write!(text, "warnings {warnings}\n")?;
    Ok(text)
}
