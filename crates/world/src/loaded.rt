//! Files that any thread loads.
ghost use Rattle.std.specs.Prelude.{◌≡◌, IfOk, Some, string_bytes};
ghost use Rattle.world.specs.Run.{nothing_yet, with_load};

use crate::faults::LoadFault;
use crate::files::load_into;
use crate::trace::Trace;
use std::alloc::Global;
use std::fs::Files;

/// A file that any thread read to its end, and the system calls by which it was.
#[derive(Drop)]
pub struct Loaded {
    name: String,
    bytes: Vec<u8>,
    trace: Trace,
    pub ghost read: { trace.run ≡ with_load nothing_yet (Some (string_bytes name)) bytes.items },
}

impl Loaded {
    /// The name of the file.
    pub fn name(&self) -> &String
        ensures { result.now ≡ self.now.name }
    {
        &self.name
    }

    /// The bytes, after the calls by which they were read are appended to those of this run.
    pub fn join(self, calls: &mut Trace) -> Vec<u8>
        ensures bytes { result ≡ self.bytes }
        ensures loaded { calls.new.run
            ≡ with_load calls.old.run (Some (string_bytes self.name)) result.items }
    {
        let Loaded { name, bytes, trace } = self;
        let _ = name;
        calls.join(trace);
        bytes
    }
}

/// All bytes of the file of this name, by a shared reference. A failed load's calls are dropped.
pub fn load_apart<R: Files>(rt: &R, alloc: Global, name: String) -> Result<Loaded, LoadFault>
    ensures { IfOk result (λ file. string_bytes file.name ≡ string_bytes name) }
{
    let mut trace = Trace::new();
    let bytes = load_into(rt, name.as_str(), Vec::new(alloc), &mut trace)?;
    Ok(Loaded { name, bytes, trace })
}
