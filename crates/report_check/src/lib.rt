//! Whether a report is that of a ledger. The report that the ledger should have is printed from the
//! sums of its entries, and compared. If the uploads' ends are not known, only the form and the taps
//! of their lines are checked.
#![tactic(auto)]

pub mod laws;
mod uploads;
mod verdict;

pub use verdict::{ReportVerdict, check_report};
