//! Subcommands of the tools over any world: each from the words that name its files to the status,
//! with its text and its fault line.
#![tactic(auto)]

mod bounds;
mod corrections;
mod counted;
mod decode;
mod encode;
mod encode_csvs;
mod encode_loads;
mod encode_rows;
mod encode_tables;
mod fault;
mod informs;
mod known;
mod layout;
mod loads;
mod look;
mod merge;
mod merge_sorted;
mod names;
mod one_file;
mod placed;
mod prepared;
mod quotes;
mod sort;
mod stops;
mod streams;
mod table;
mod uploads;
mod valid_prefix;
mod wrong_tables;

pub use bounds::bounds_over;
pub use corrections::corrections_over;
pub use counted::Counted;
pub use decode::decode_over;
pub use encode::encode_over;
pub use encode_rows::encode_rows_over;
pub use fault::Fault;
pub use look::look_over;
pub use merge::merge_over;
pub use merge_sorted::merge_sorted_over;
pub use names::Name;
pub use placed::PlacedFiles;
pub use sort::sort_over;
pub use streams::Streams;
pub use table::table_over;
pub use uploads::uploads_over;
pub use valid_prefix::valid_prefix_over;
