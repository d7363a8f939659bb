//! Reports, statements, findings and lists of uploads as JSON or CSV. A writer takes the text line by
//! line, and writes its values in the other form.
#![tactic(auto)]

mod escapes;
mod fields;
mod layout;
mod layouts;
mod shape;
mod shaped;

pub use layout::{Layout, Line, Part};
pub use layouts::{FINDINGS, REPORT, STATEMENT, UPLOADS};
pub use shape::Form;
pub use shaped::Shaped;
