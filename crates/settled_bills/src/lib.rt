//! Settled taps charged account by account: the bill, the ledger, one token's texts, the parts, and
//! the traced ledger. The line of each tap is made in the step that posts it: no entry is kept, and
//! nothing is sorted. A traced ledger has after each line its rider's class, and the upload and the
//! index there of its tap.
//!
//! The taps come from lists in memory, or from files in canonical order, which are read in pieces and
//! merged tap by tap. Several workers take a range of the tokens, a share of the files or a share of
//! the next taps each.
#![tactic(auto)]

mod bill;
mod by_threads;
mod charges;
mod columns;
mod fault;
pub mod laws;
mod ledger;
mod lines;
mod lines_below;
mod one_token;
mod own_by_threads;
mod own_taps;
mod part;
mod part_ledger;
mod rounds;
mod slot;
mod sorted_ledger;
mod taker;
mod tap_numbers;
mod token_part;
mod trace;
mod traced_ledger;

pub use bill::sorted_bill;
pub use class_names::{ClassFault, ClassNames, WrongNames};
pub use fault::BillFault;
pub use ledger::write_settled_ledger;
pub use one_token::{write_token_explained, write_token_ledger, write_token_statement};
pub use own_taps::sorted_taps_of;
pub use part_ledger::write_part_ledger;
pub use sorted_ledger::write_sorted_ledger;
pub use token_part::{PartBill, part_bill, part_spans};
pub use trace::{Trace, TracedTap, trace_of};
pub use traced_ledger::write_traced_ledger;
