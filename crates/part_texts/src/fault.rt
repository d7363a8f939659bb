//! Why texts of parts are not merged.

use report_texts::Wrong;
use world::WriteFault;

/// Why texts of parts are not merged.
#[derive(Clone, Copy, Debug, PartialEq, Eq)]
pub enum MergeFault {
    /// A line is wrong.
    Line {
        /// The number of the text, from 0.
        text: usize,
        /// The number of the line, from 1.
        number: u64,
        /// What is wrong.
        why: Wrong,
    },
    /// A read of this text failed, or it was not opened.
    Unread(usize),
    /// A write failed.
    Write(WriteFault),
    /// An allocation failed.
    NoMemory,
}
