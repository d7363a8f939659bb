//! Pieces that are written to a stream, each write recorded.
ghost use Rattle.std.specs.Prelude.{◌≡◌, ◌+◌, ◌≤◌, Err, IfErr, OnErr, OnOk, length, take};
ghost use Rattle.world.specs.{Run.Run, Run.with_written, Writes.IsCut};

use crate::faults::WriteFault;
use crate::trace::Trace;
use std::io::{ErrorKind, Write};

fn note_more(trace: &mut Trace, piece: &[u8], at: usize, count: usize)
    requires { at + count ≤ length piece.now }
    ensures { (r : Run) → trace.old.run ≡ with_written r (take at piece.now)
        → trace.new.run ≡ with_written r (take (at + count) piece.now) }
{
    trace.wrote(piece, at, count)
}

fn note_cut(trace: &mut Trace, piece: &[u8], at: usize, fault: WriteFault) -> WriteFault
    ensures cut { (r : Run) → trace.old.run ≡ with_written r (take at piece.now)
        → IsCut r trace.new.run piece.now result }
    ensures fault { result ≡ fault }
{
    let _ = piece;
    let _ = at;
    trace.cut(fault);
    fault
}

pub(crate) fn write_piece<W: Write>(
    out: &mut W,
    piece: &[u8],
    trace: &mut Trace,
) -> Result<(), WriteFault>
    ensures whole { OnOk result (trace.new.run ≡ with_written trace.old.run piece.now) }
    ensures cut { IfErr result (IsCut trace.old.run trace.new.run piece.now) }
{
    let mut at = 0usize;
    for _ in 0..u64::MAX {
        if at >= piece.len() {
            return Ok(());
        }
        match out.write(&piece[at..]) {
            Ok(0) => break,
            Ok(count) => {
                note_more(trace, piece, at, count);
                at += count;
            }
            Err(error) if error.kind() == ErrorKind::Interrupted => {}
            Err(error) => return Err(note_cut(trace, piece, at, WriteFault::of(&error))),
        }
    }
    Err(note_cut(trace, piece, at, WriteFault::Refused))
}
