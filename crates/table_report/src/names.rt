//! The names of modes and classes by their indexes.

use fare_table::FareTable;

fn name_at(names: &[String], position: usize) -> &str {
    match names.get(position) {
        Some(name) => name.as_str(),
        None => "",
    }
}

pub(crate) fn class_name(fares: &FareTable, position: usize) -> &str {
    name_at(fares.class_names(), position)
}

pub(crate) fn mode_name(fares: &FareTable, position: usize) -> &str {
    name_at(fares.mode_names(), position)
}
