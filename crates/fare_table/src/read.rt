//! The reader of a fare table's TOML text: one file a key.

mod caps;
mod class_names;
mod classes;
mod members;
mod modes;
mod riders;
pub(crate) mod tariff;
mod transfers;
mod validators;
mod window;
mod zone;
