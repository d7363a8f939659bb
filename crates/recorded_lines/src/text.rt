//! A text that is read line by line.

ghost use Rattle.std.specs.Prelude.{◌≡◌, ◌≤◌, None, Some, vec_len};
ghost use Rattle.recorded_lines.specs.Unread.{IsUnread};
ghost use Rattle.line_folds.specs.declared.reader.ReadFault.TheVariants.{Unread};
ghost use Rattle.world.specs.Streams.{HasRead};

use line_folds::ReadFault;
use world::Stream;

/// A file or standard input that is read line by line, each read recorded. After a fault it is not
/// read on.
#[derive(Drop)]
pub struct Lines {
    pub(crate) stream: Stream,
    /// What the last read gave, of which the bytes before `at` were taken.
    pub(crate) piece: Vec<u8>,
    pub(crate) at: usize,
    pub(crate) fault: Option<ReadFault>,
    ghost taken: { at ≤ vec_len piece },
    ghost sound: { fault ≡ None → HasRead stream stream.trace.reading.name stream.trace.reading.bytes },
    ghost unread: { fault ≡ Some Unread → IsUnread stream.trace },
}
