//! A run over the files, the standard input and the outputs of the system.
ghost use Rattle.fare_program.specs.Ends.{EndsFares, beside};
ghost use Rattle.std.specs.Prelude.{◌≡◌, ℕ, List, None, Some, map, string_bytes};
ghost use Rattle.world.specs.Origins.{file};

use fare_program::{Disk, Output, main_over};
use run_progress::{Hushing, Ticker, Watched, WatchedDisk};
use std::io::{Sink, Write};
use std::marker::Sync;
use std::random::RandomSource;
use std::sync::Wait;
use std::thread;
use std::thread::Threads;
use std::time::Clock;
use world::{Recorded, System, World};

/// Runs the whole program over the system's files, standard input and outputs. What was loaded,
/// written and reported is what the system calls tell: the text was given to `W`, which writes its
/// form. What was reported went to the standard error with its control characters escaped.
pub fn run_system<
    R: Threads + Wait + Clock + RandomSource + Sync + AllocGlobal,
    E: Write + Drop,
    W: Write + Drop,
>(
    rt: &R,
    system: &HostRuntime,
    words: &[String],
    ticker: &Ticker,
    world: &mut Watched<'_, R, System<'_, HostRuntime, Sink, E>>,
    out: &mut Output<Hushing<'_, R, Recorded<W>>>,
) -> u8
    // The outcome of a run, with what the system calls tell: with status 0 the output has the text of
    // exactly the bytes that the named files gave.
    ensures { out.old.end ≡ None → EndsFares (map string_bytes words.now) (λ _. None) file
        (beside world.old.from.trace.run out.old.writer.to.trace.run.written None
        out.old.is_flushed)
        (beside world.new.from.trace.run out.new.writer.to.trace.run.written out.new.end
        out.new.is_flushed) result }
{
    let disk = WatchedDisk::new(rt, ticker, system);
    run_beside_line(rt, words, ticker, &disk, world, out)
}

/// Runs the whole program as `main_over` does, while the ticker shows what it does. If no thread
/// can be started, no line is shown: then `tick` comes last, and sees that all is over.
fn run_beside_line<
    R: Threads + Wait + Clock + RandomSource + Sync + AllocGlobal,
    D: Disk + Sync,
    I: World,
    W: Write,
>(rt: &R, words: &[String], ticker: &Ticker, disk: &D, world: &mut I, out: &mut Output<W>) -> u8
    ensures { (before after : List ℕ) → W.contents out.old.writer ≡ Some before
        → W.contents out.new.writer ≡ Some after → out.old.end ≡ None
        → EndsFares (map string_bytes words.now) (D.bytes_under disk.now) (D.origin disk.now)
        (beside (I.run world.old) before None out.old.is_flushed)
        (beside (I.run world.new) after out.new.end out.new.is_flushed) result }
{
    let (_, status) = thread::join_mut(
        rt,
        &mut || ticker.tick(rt),
        &mut || -> u8
            ensures { (before after : List ℕ) → W.contents out.entry.now.writer ≡ Some before
                → W.contents out.exit.now.writer ≡ Some after → out.entry.now.end ≡ None
                → EndsFares (map string_bytes words.entry.now) (D.bytes_under disk.entry.now)
                (D.origin disk.entry.now)
                (beside (I.run world.entry.now) before None out.entry.now.is_flushed)
                (beside (I.run world.exit.now) after out.exit.now.end out.exit.now.is_flushed)
                result }
        {
            let status = main_over(rt, rt.alloc(), words, disk, world, out);
            ticker.end(rt);
            status
        },
    );
    status
}
