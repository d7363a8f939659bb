//! The reader of an agency's fare table: a TOML text, and the table of `tariffs` that it means, or
//! the first fault in the order of the keys. The layout of the text is this project's.
#![tactic(auto)]

mod bounds;
mod fault;
pub mod laws;
mod read;
mod read_table;

pub use bounds::{
    ANY_RIDE_TRANSFERS, MAX_CEILING_CENTS, MAX_FARE_CENTS, MAX_MODE_NAME_BYTES, MAX_PAYS_CENTS,
    MAX_RIDE_TRANSFERS, MAX_RIDES, MAX_TRANSFER_MINUTES, UNNAMED_RIDES,
};
pub use fault::{Key, TableFault};
pub use read_table::ReadFareTable;
pub use tariffs::{
    CapTerms, Class, Clock, FareTable, FollowFault, MAX_CAPS, MAX_MODES, Mode, NO_CEILING,
    RangeRest, Tariff, Terms, TransferTerms, WindowLength, WindowSpan, minutes_named,
};
