//! The text of a report: how it is written, and how its lines are read.
#![tactic(auto)]

pub mod forms;
mod front;
pub mod laws;
mod report;
mod token_lines;
mod wrong;

pub use front::{write_section_head, write_upload, write_validator};
pub use report::write_report;
pub use tap_views::UploadEnd;
pub use wrong::Wrong;
