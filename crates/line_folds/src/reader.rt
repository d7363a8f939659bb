//! How a line of a text is read.

/// What the next line is. Only a text's last line may lack a line feed.
#[derive(Clone, Copy, Debug, PartialEq, Eq)]
pub enum NextLine {
    /// A line of at most 1,024 bytes.
    Whole,
    /// A longer one.
    Long,
    End,
}

/// Why no line was read.
#[derive(Clone, Copy, Debug, PartialEq, Eq)]
pub enum ReadFault {
    Unread,
    NoMemory,
}
