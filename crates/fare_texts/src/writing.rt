//! Writing bytes out.

ghost use Rattle.std.specs.Prelude.{◌≡◌, OnErr, OnOk, IfErr};
ghost use Rattle.std.specs.Io.KnownBytes.{Appends};
ghost use Rattle.fare_texts.specs.WrittenOut.{Begins};
ghost use Rattle.fare_texts.specs.declared.print_fault.PrintFault.TheVariants.{Write as ForWrite};

use crate::print_fault::PrintFault;
use std::io;
use std::io::{ErrorKind, Write};

/// Writes the bytes at once. If a write fails, a prefix of them was written.
pub fn write_bytes<W: Write>(bytes: &[u8], out: &mut W) -> io::Result<()>
    ensures whole { OnOk result (Appends (W.contents out.old) (W.contents out.new) bytes.now) }
    ensures started { OnErr result (Begins (W.contents out.old) (W.contents out.new) bytes.now) }
{
    let mut rest = bytes;
    for _write in 0..u64::MAX {
        if rest.is_empty() {
            return Ok(());
        }
        match out.write(rest) {
            Ok(0) => return Err(io::Error::from(ErrorKind::WriteZero)),
            Ok(count) => rest = &rest[count..],
            Err(error) => {
                if error.kind() != ErrorKind::Interrupted {
                    return Err(error);
                }
            }
        }
    }
    Err(io::Error::from(ErrorKind::WriteZero))
}

/// Writes the bytes at once. If the writer fails, a prefix of them was written.
pub fn write_out<W: Write>(bytes: &[u8], out: &mut W) -> Result<(), PrintFault>
    ensures ok { OnOk result (Appends (W.contents out.old) (W.contents out.new) bytes.now) }
    ensures started { OnErr result (Begins (W.contents out.old) (W.contents out.new) bytes.now) }
    ensures fault { IfErr result (λ fault. fault ≡ ForWrite) }
{
    match write_bytes(bytes, out) {
        Ok(()) => Ok(()),
        Err(_) => Err(PrintFault::Write),
    }
}
