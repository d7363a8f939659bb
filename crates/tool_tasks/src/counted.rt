//! What a program reads, and what whoever watches it is shown of it.

use world::{Inputs, LoadFault};

/// What a program may read, where whoever watches it is shown how much is read.
pub trait Counted: Inputs {
    ghost use Rattle.std.specs.Prelude.{◌≡◌, IfErr, IfOk, option_map};
    ghost use Rattle.world.specs.Loads.{IsRefused};
    ghost use Rattle.world.specs.Run.{with_load};

    /// Shows how many of all the uploads are read.
    fn show_count(&mut self, done: usize, all: usize)
        ensures { Self.run self.new ≡ Self.run self.old };

    /// Takes away what is shown.
    fn end_count(&mut self)
        ensures { Self.run self.new ≡ Self.run self.old };

    /// All bytes of the file of this name, else of standard input, however many. Shows how many are
    /// read.
    fn load_whole(&mut self, name: Option<&str>) -> Result<Vec<u8>, LoadFault>
        ensures loaded { IfOk result (λ bytes. Self.run self.new ≡ with_load (Self.run self.old)
            (option_map (λ n. n.now) name.entry) bytes.items) }
        ensures refused { IfErr result (IsRefused (Self.run self.old) (Self.run self.new)
            (option_map (λ n. n.now) name.entry)) };
}
