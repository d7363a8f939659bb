//! A file or standard input that is read whole.
ghost use Rattle.std.specs.Prelude.{◌≡◌, ◌≢◌, IfErr, IfOk, option_map};
ghost use Rattle.world.specs.{Loads.IsRefused, Run.no_calls, Run.nothing_yet, Run.with_load};

use crate::progress::Progress;
use world::{LoadFault, Stream};

/// All bytes of the file of this name, else of standard input, however many. Their number is shown.
pub(crate) fn read_whole(
    rt: &HostRuntime,
    name: Option<&str>,
    progress: &mut Progress<'_>,
    stream: &mut Stream,
) -> Result<Vec<u8>, LoadFault>
    requires { stream.old.trace ≡ no_calls }
    ensures loaded { IfOk result (λ bytes. stream.new.trace.run
        ≡ with_load nothing_yet (option_map (λ n. n.now) name.entry) bytes.items) }
    ensures refused { IfErr result (λ why. why ≢ LoadFault.NoMemory → IsRefused nothing_yet
        stream.new.trace.run (option_map (λ n. n.now) name.entry) why) }
{
    stream.open(rt, name)?;
    let mut bytes = Vec::new(rt.alloc());
    let mut piece = Vec::new(rt.alloc());
    for _ in 0..u64::MAX {
        progress.report_bytes(bytes.len() as u64, "read");
        stream.read(&mut piece)?;
        if piece.is_empty() {
            return Ok(bytes);
        }
        bytes.extend_from_slice(&piece)?;
    }
    // no run makes so many reads
    Err(LoadFault::NoMemory)
}
