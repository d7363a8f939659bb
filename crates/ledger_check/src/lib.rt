//! A check of a ledger's text: whether it is, whole, the ledger of legal histories under a fare
//! table, and else which line is the first that no such ledger has there. It steps the account of
//! each line's token, prints the line that the tap should have, and compares: it stores one account
//! and at most 255 bytes of the text. A balance compares the taps of uploads with those of a ledger
//! as multisets, and stores each tap of the uploads once.
#![tactic(auto)]

mod balance;
pub mod balance_laws;
mod bytes;
mod checker;
mod columns;
mod exact;
mod full_balance;
mod full_check;
mod full_check_sums;
pub mod laws;
mod legal;
mod lines_fed;
mod moment;
mod open_sums;
mod order;
mod positions;
mod tap;
mod walk;

pub use balance::{Balance, Difference};
pub use bytes::{same_bytes, split_line};
pub use checker::{Checker, Verdict};
pub use columns::{CutLine, cut_line, has_ledger_head, has_traced_head, traced_head_line};
pub use exact::tap_of_line;
pub use full_balance::FullBalance;
pub use full_check::{FullCheck, FullyChecked};
pub use legal::write_legal;
pub use open_sums::EntrySums;
pub use positions::{PositionFinding, Positions};
