//! A ghost copy of a slice.

use std::marker::Model;
use std::snapshot::Snapshot;

/// A copy of bytes for clauses alone. It has no bytes at run time.
#[cycle(ghost_bytes)]
#[derive(Drop)]
pub struct GhostBytes {
    last: Snapshot<Copying>,
}

/// The last byte, and those before it.
#[cycle(ghost_bytes)]
#[derive(Drop)]
enum Copying {
    Start,
    Byte(Snapshot<GhostBytes>, Snapshot<u8>),
}

const _: () = prove!(size_of::<GhostBytes>() == 0);

impl Model for GhostBytes {
    ghost use Rattle.world.specs.GhostBytes.{BytesView};

    ghost Value = { BytesView };

    ghost use Rattle.world.specs.inside.Copying.{after_byte};

    ghost view = { λ copy. after_byte copy.last.value };

    ghost size = { λ copy. copy.count };

    ghost use Rattle.std.proofs.Common.{arith};

    ghost size_decreases = { λ a h. Prim.grind arith };
}

impl GhostBytes {
    ghost use Rattle.std.specs.Prelude.{◌≡◌};
    ghost use Rattle.world.specs.GhostBytes.{no_bytes, with_byte};

    fn new() -> GhostBytes
        ensures { result ≡ no_bytes }
    {
        GhostBytes {
            last: Snapshot::of(&Copying::Start),
        }
    }

    fn push(&mut self, byte: u8)
        ensures { self.new ≡ with_byte self.old byte }
    {
        let more = Copying::Byte(Snapshot::of(self), Snapshot::of(&byte));
        self.last = Snapshot::of(&more);
    }

    /// A copy of these bytes. The loop has no effect, so LLVM leaves none of it in a program.
    pub fn of(bytes: &[u8]) -> GhostBytes
        ensures { result.bytes ≡ bytes.now }
    {
        let mut copy = GhostBytes::new();
        for byte in bytes {
            copy.push(*byte);
        }
        copy
    }
}
