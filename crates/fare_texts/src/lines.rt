//! How lines that wait in a text are written in pieces.

ghost use Rattle.fare_texts.specs.{Lines.HasConsumed, WrittenOut.Begins, WrittenOut.GoesOut};
ghost use Rattle.fare_texts.specs.declared.print_fault.PrintFault.TheVariants.{Write as ForWrite};
ghost use Rattle.histories.specs.declared.entry.Entry.{Entry};
ghost use Rattle.std.specs.Io.KnownBytes.{Appends, Keeps, append_known};
ghost use Rattle.std.specs.Prelude.{◌≡◌, ◌≤◌, List, [], IfErr, OnErr, OnOk, string_bytes};
ghost use Rattle.tap_views.specs.TokenOrder.{IsUpTo};
ghost use Rattle.tariffs.specs.Fares.{Fares};

use crate::{Explainer, PrintFault, write_out};
use std::io::Write;
use tap_views::Token;

/// How many bytes wait at least before they are written out: enough that a write costs little
/// beside them.
pub const PIECE_BYTES: usize = 65_536;

/// Writes out what waits in the text, whose room stays.
pub fn pass_on<W: Write>(text: &mut String, out: &mut W) -> Result<(), PrintFault>
    ensures kept { OnOk result (Keeps (append_known (W.contents out.old) (string_bytes text.old))
        (append_known (W.contents out.new) (string_bytes text.new))) }
    ensures whole { OnOk result (Appends (W.contents out.old) (W.contents out.new)
        (string_bytes text.old)) }
    ensures empty { OnOk result (string_bytes text.new ≡ []) }
    ensures started { OnErr result (Begins (W.contents out.old) (W.contents out.new)
        (string_bytes text.old)) }
    ensures fault { IfErr result (λ fault. fault ≡ ForWrite) }
{
    write_out(text.as_bytes(), out)?;
    text.clear();
    Ok(())
}

/// Writes out what waits in the text, if it is a piece: `PIECE_BYTES` or more.
pub fn pass_piece<W: Write>(text: &mut String, out: &mut W) -> Result<(), PrintFault>
    ensures kept { OnOk result (Keeps (append_known (W.contents out.old) (string_bytes text.old))
        (append_known (W.contents out.new) (string_bytes text.new))) }
    ensures gone { OnOk result (GoesOut (W.contents out.old) (string_bytes text.old)
        (W.contents out.new) (string_bytes text.new) []) }
    ensures started { OnErr result (Begins (W.contents out.old) (W.contents out.new)
        (string_bytes text.old)) }
    ensures fault { IfErr result (λ fault. fault ≡ ForWrite) }
{
    if text.len() < PIECE_BYTES {
        return Ok(());
    }
    pass_on(text, out)
}

#[inline]
/// Goes on with the token of the next entry, which is not below the explainer's own: another token
/// begins afresh.
pub fn go_on_to(explainer: &mut Explainer, token: Token)
    ensures consumed { (fares : Fares) (earlier : List Entry) → HasConsumed fares explainer.old earlier
        → IsUpTo explainer.old.token token → HasConsumed fares explainer.new earlier }
    ensures token { explainer.new.token ≡ token }
    ensures few { explainer.new.number ≤ explainer.old.number }
{
    if explainer.token != token {
        *explainer = Explainer::of(token);
    }
}
