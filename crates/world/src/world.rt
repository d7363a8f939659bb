//! What a program may read, and what it may do.

use crate::faults::{LoadFault, MakeFault, WriteFault};
use crate::loaded::Loaded;
use crate::trace::Trace;
use std::fmt::Display;
use std::io;
use std::io::Write;

/// What a program may read.
pub trait Inputs {
    ghost use Rattle.std.specs.Prelude.{◌≡◌, IfErr, IfOk, None, Some, string_bytes};
    ghost use Rattle.world.specs.Run.{Run, with_all, with_load};
    ghost use Rattle.world.specs.Loads.{IsRefused};

    // What the run did so far.
    ghost run: { Self → Run };

    /// All bytes of the file of this name, read to its end.
    fn load(&mut self, name: &str) -> Result<Vec<u8>, LoadFault>
        ensures loaded { IfOk result (λ bytes.
            run self.new ≡ with_load (run self.old) (Some name.now) bytes.items) }
        ensures refused { IfErr result (IsRefused (run self.old) (run self.new) (Some name.now)) };

    /// The same, read into the memory of `room`, which is used again: what is in it is overwritten.
    fn load_into(&mut self, name: &str, room: Vec<u8>) -> Result<Vec<u8>, LoadFault>
        ensures loaded { IfOk result (λ bytes.
            run self.new ≡ with_load (run self.old) (Some name.now) bytes.items) }
        ensures refused { IfErr result (IsRefused (run self.old) (run self.new) (Some name.now)) };

    /// All bytes that standard input has left, read to its end. It is a load without a name.
    fn input(&mut self) -> Result<Vec<u8>, LoadFault>
        ensures loaded { IfOk result (λ bytes.
            run self.new ≡ with_load (run self.old) None bytes.items) }
        ensures refused { IfErr result (IsRefused (run self.old) (run self.new) None) };

    /// The bytes of a file that another thread loaded: it becomes a load of this run.
    fn take(&mut self, file: Loaded) -> Vec<u8>
        ensures bytes { result ≡ file.bytes }
        ensures loaded { run self.new
            ≡ with_load (run self.old) (Some (string_bytes file.name)) result.items };

    /// Appends the calls of another thread to those of this run.
    fn join(&mut self, calls: Trace)
        ensures { run self.new ≡ with_all (run self.old) calls.run };
}

/// What a program may do.
pub trait World: Inputs {
    ghost use Rattle.std.specs.Prelude.{◌≡◌, ◌++◌, [], IfErr, IfOk, IfSome, OnOk, Some, codes};
    ghost use Rattle.world.specs.Run.{with_cut, with_flushed, with_made, with_said, with_written};
    ghost use Rattle.world.specs.Writes.{IsCut, IsSaid, IsUnmade};

    /// A file that is being made.
    type File: Write + Drop;

    /// Writes the piece to the output, whole if the output takes it.
    fn write(&mut self, piece: &[u8]) -> Result<(), WriteFault>
        ensures whole { OnOk result
            (Self.run self.new ≡ with_written (Self.run self.old) piece.now) }
        ensures cut { IfErr result (IsCut (Self.run self.old) (Self.run self.new) piece.now) };

    /// Flushes the output.
    fn flush(&mut self) -> Result<(), WriteFault>
        ensures flushed { OnOk result (Self.run self.new ≡ with_flushed (Self.run self.old)) }
        ensures cut { IfErr result
            (λ fault. Self.run self.new ≡ with_cut (Self.run self.old) fault) };

    /// Gives the text to the standard error.
    fn say(&mut self, text: &[u8])
        ensures { Self.run self.new ≡ with_said (Self.run self.old) text.now };

    /// Gives the line and a line feed to the standard error, or the error of its `Display`.
    fn report_line<D: Display + Drop>(&mut self, line: D) -> Result<(), io::Error>
        ensures line { OnOk result (IfSome (D.output line)
            (λ text. Self.run self.new ≡ with_said (Self.run self.old) (text ++ codes "\n"))) }
        ensures said { IsSaid (Self.run self.old) (Self.run self.new) };

    /// An empty file that is to have this name. It is written under another one. If it is to be
    /// new, no file has the name, else a regular file of the name is replaced once this is whole.
    fn begin(&mut self, name: &str, is_new: bool) -> Result<Self::File, MakeFault>
        ensures empty { IfOk result (λ file. Self.File.contents file ≡ Some []) }
        ensures unchanged { OnOk result (Self.run self.new ≡ Self.run self.old) }
        ensures unmade { IfErr result (IsUnmade (Self.run self.old) (Self.run self.new) name.now) };

    /// Gives the file its name once it is on the disk. A fault leaves nothing of it.
    fn finish(&mut self, name: &str, file: Self::File) -> Result<(), MakeFault>
        ensures made { OnOk result (IfSome (Self.File.contents file) (λ bytes. Self.run self.new
            ≡ with_made (Self.run self.old) (record { name = name.now; bytes = bytes }))) }
        ensures unmade { IfErr result (IsUnmade (Self.run self.old) (Self.run self.new) name.now) };

    /// Removes the file, and says why it was not made: a write to it failed, or an allocation.
    fn fail(&mut self, name: &str, file: Self::File) -> MakeFault
        ensures { IsUnmade (Self.run self.old) (Self.run self.new) name.now result };

    /// Removes the file.
    fn discard(&mut self, file: Self::File)
        ensures { Self.run self.new ≡ Self.run self.old };
}
