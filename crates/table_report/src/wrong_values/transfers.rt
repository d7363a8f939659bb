//! What is wrong with the transfers of a text.

use super::checks::{are_all, array_at, is_one_of, one_of};
use super::ranges::check_mode;
use super::wrong::Wrongs;
use crate::paths::{item_path, key_path};
use fare_table::{Key, MAX_PAYS_CENTS};
use std::alloc::AllocError;
use std::collections::BTreeMap;
use toml::value::Array;
use toml::{Table, Value};

const TRANSFERS: &str = "an array of pairs of modes, from and to; [] for none";

const PAIR: &str = "a pair of modes, from and to";

/// The value of `pays` for the difference of fares.
const DIFFERENCE: &str = "difference";

/// The pairs so far, by the positions of their modes: what each pays, and its index.
type Prices = BTreeMap<(usize, usize), (i64, usize)>;

/// Whether the value is a pair of strings, or a table.
fn is_pair(value: &Value) -> bool {
    match value.as_array() {
        Some(array) => array.len() == 2 && array.iter().all(|name| name.is_str()),
        None => value.is_table(),
    }
}

/// What `pays` says: -1 for the difference.
fn pays_of(value: &Value) -> Option<i64> {
    match value.as_integer() {
        Some(cents) if 1 <= cents && cents <= i64::from(MAX_PAYS_CENTS) => Some(cents),
        Some(_cents) => None,
        None if value.as_str() == Some(DIFFERENCE) => Some(-1),
        None => None,
    }
}

fn check_pays(wrongs: &mut Wrongs, path: &str, entry: &Table) -> Result<(), AllocError> {
    let wanted = format!(in wrongs.alloc;
        "a number from 1 to {}, in cents, or \"{}\"",
        MAX_PAYS_CENTS, DIFFERENCE
    )?;
    let key = Key::Pays.word();
    let Some(value) = entry.get(key) else {
        return wrongs.missing(path, key, wanted.as_str());
    };
    if pays_of(value).is_some() {
        return Ok(());
    }
    let path = key_path(wrongs.alloc, path, key)?;
    wrongs.value(path, value, wanted.as_str())
}

fn check_names(
    wrongs: &mut Wrongs,
    path: &str,
    names: &Array,
    modes: &[&str],
) -> Result<(), AllocError> {
    let wanted = one_of(wrongs.alloc, "a mode of the table", modes)?;
    for (side, name) in names.iter().enumerate() {
        if !is_one_of(name, modes) {
            let path = item_path(wrongs.alloc, path, side)?;
            wrongs.value(path, name, wanted.as_str())?;
        }
    }
    Ok(())
}

/// The position of the mode that the value names.
fn position_of(value: Option<&Value>, modes: &[&str]) -> Option<usize> {
    let name = value?.as_str()?;
    modes.iter().position(|other| *other == name)
}

/// What a pair pays, with the positions of its modes: 0 if it is free, -1 for the difference.
fn price_of(value: &Value, modes: &[&str]) -> Option<((usize, usize), i64)> {
    if let Some(names) = value.as_array() {
        let from = position_of(names.get(0), modes)?;
        let to = position_of(names.get(1), modes)?;
        return Some(((from, to), 0));
    }
    let entry = value.as_table()?;
    let from = position_of(entry.get(Key::From.word()), modes)?;
    let to = position_of(entry.get(Key::To.word()), modes)?;
    let pays = pays_of(entry.get(Key::Pays.word())?)?;
    Some(((from, to), pays))
}

/// Keeps what a pair pays, or adds it as one that an earlier one has with another price.
fn check_price(
    wrongs: &mut Wrongs,
    prices: &mut Prices,
    path: &str,
    position: usize,
    value: &Value,
    modes: &[&str],
) -> Result<(), AllocError> {
    let Some((pair, pays)) = price_of(value, modes) else {
        return Ok(());
    };
    match prices.get(&pair) {
        Some((other, first)) => {
            if *other == pays {
                return Ok(());
            }
            let wanted = format!(in wrongs.alloc;
                "the price of transfers[{first}], which is of the same modes"
            )?;
            let path = String::from_str(wrongs.alloc, path)?;
            wrongs.value(path, value, wanted.as_str())
        }
        None => {
            prices.insert(pair, (pays, position))?;
            Ok(())
        }
    }
}

fn check_pair(
    wrongs: &mut Wrongs,
    prices: &mut Prices,
    position: usize,
    value: &Value,
    modes: &Option<Vec<&str>>,
) -> Result<(), AllocError> {
    let path = item_path(wrongs.alloc, "transfers", position)?;
    let path = path.as_str();
    if let Some(entry) = value.as_table() {
        check_mode(wrongs, path, entry, Key::From.word(), modes)?;
        check_mode(wrongs, path, entry, Key::To.word(), modes)?;
        check_pays(wrongs, path, entry)?;
    }
    let Some(modes) = modes else {
        return Ok(());
    };
    if let Some(names) = value.as_array() {
        check_names(wrongs, path, names, modes)?;
    }
    check_price(wrongs, prices, path, position, value, modes)
}

pub(super) fn check_transfers(
    wrongs: &mut Wrongs,
    tree: &Table,
    modes: &Option<Vec<&str>>,
) -> Result<(), AllocError> {
    let Some((_, array)) = array_at(wrongs, tree, "transfers", TRANSFERS)? else {
        return Ok(());
    };
    if !are_all(wrongs, array, "transfers", PAIR, |pair| is_pair(pair))? {
        return Ok(());
    }
    let mut prices = BTreeMap::new(wrongs.alloc);
    for (position, value) in array.iter().enumerate() {
        check_pair(wrongs, &mut prices, position, value, modes)?;
    }
    Ok(())
}
