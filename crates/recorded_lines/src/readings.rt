//! The calls by which texts were read, in order.

use std::marker::Model;
use std::snapshot::Snapshot;
use world::Stream;

/// The calls by which texts were read, in order. It has no byte at run time.
#[cycle(readings)]
#[derive(Drop)]
pub struct Readings {
    last: Snapshot<Reading>,
}

/// The stream that was read last, and those before it.
#[cycle(readings)]
#[derive(Drop)]
enum Reading {
    Start,
    Read(Snapshot<Readings>, Snapshot<Stream>),
}

const _: () = prove!(size_of::<Readings>() == 0);

impl Model for Readings {
    ghost use Rattle.std.specs.Prelude.{List, length};
    ghost use Rattle.world.specs.Run.{Calls};

    ghost Value = { List Calls };

    ghost use Rattle.recorded_lines.specs.inside.Readings.{after_reading};

    ghost view = { λ readings. after_reading readings.last.value };

    ghost size = { λ list. length list };

    ghost use Rattle.std.proofs.Common.{arith};
    ghost use Rattle.std.proofs.lemmas.Grind.{common_steps};

    ghost size_decreases = { λ a h. Prim.grind (arith, common_steps) };
}

impl Readings {
    ghost use Rattle.std.specs.Prelude.{◌≡◌, ◌++◌, ◌∷◌, []};

    /// Nothing was read.
    pub fn new() -> Readings
        ensures { result ≡ [] }
    {
        Readings {
            last: Snapshot::of(&Reading::Start),
        }
    }

    /// The stream was read by its calls.
    pub fn note(&mut self, stream: &Stream)
        ensures { self.new ≡ self.old ++ stream.now.trace ∷ [] }
    {
        self.last = Snapshot::of(&Reading::Read(Snapshot::of(self), Snapshot::of(stream)));
    }
}
