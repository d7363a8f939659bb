//! What a fare table means, looked up at every tap. Every number, name, pair and class is data,
//! which `fare_table` reads from a text. A moment is in milliseconds since 1970-01-01T00:00Z.
#![tactic(auto)]

mod cap_terms;
mod class;
mod clock;
mod follow_fault;
pub mod laws;
mod mode;
mod price;
mod riders;
mod table;
mod tariff;
mod terms;
mod transfer_terms;
mod transfers;
mod validators;
mod window_span;
mod zone;

pub use cap_terms::{CapTerms, MAX_CAPS, NO_CEILING};
pub use class::Class;
pub use clock::Clock;
pub use follow_fault::FollowFault;
pub use mode::{MAX_MODES, Mode};
pub use price::{Pays, Price};
pub use riders::Riders;
pub use table::FareTable;
pub use tariff::{Tariff, TariffParts};
pub use terms::Terms;
pub use transfer_terms::TransferTerms;
pub use transfers::Transfers;
pub use validators::{RangeRest, Ranges};
pub use window_span::{WindowLength, WindowSpan, minutes_named};
pub use zone::Zone;
