//! What stops a run.
ghost use Rattle.std.specs.Prelude.{◌≡◌};
ghost use Rattle.frame.specs.Outsides.{is_quiet};

use world::{LoadFault, MakeFault, WriteFault};

/// What stops a run.
#[derive(Clone, Copy, Debug)]
pub enum Outside {
    /// A file was not loaded.
    Unread(LoadFault),
    Unwritten(WriteFault),
    /// A file was not made. The flag is set if it was begun.
    Unmade(MakeFault, bool),
    /// What a file holds is wrong.
    Wrong,
    /// A file that no trace tells of was not opened or read, or it changed.
    Untraced,
    NoMemory,
}

impl Outside {
    pub(crate) fn is_quiet(&self) -> bool
        ensures { result ≡ is_quiet self.now }
    {
        matches!(self, Outside::Unwritten(WriteFault::Closed))
    }
}
