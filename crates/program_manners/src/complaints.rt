//! Where usage errors and faults are reported.
use std::fmt::Display;
use std::io::Write;

/// Writes the line and a line feed, whole if they can be written. If they cannot, nothing is
/// reported, and the program goes on.
pub fn report_line<W: Write, D: Display + Drop>(err: &mut W, line: D) {
    let _ = write!(err, "{line}\n");
}
