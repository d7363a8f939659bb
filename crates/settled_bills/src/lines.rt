//! The lines of taps whose tokens are nondecreasing.

ghost use Rattle.std.specs.Prelude.{◌≡◌, ◌++◌, ◌∷◌, [], IfErr, OnErr, OnOk, string_bytes};
ghost use Rattle.fare_texts.specs.declared.print_fault.PrintFault.TheVariants.{Write as ForWrite};
ghost use Rattle.fare_texts.specs.WrittenOut.{Begins, GoesOut};
ghost use Rattle.settled_bills.specs.inside.ExplainedTaps.{Explains, HaveLines, MayExplain};

use fare_texts::{Explainer, Line, PrintFault, go_on_to, pass_piece};
use settlement::token_of;
use std::alloc::AllocError;
use std::io::Write;
use tap_views::TapFields;
use tariffs::{Clock, FareTable};

/// If an allocation fails, the line is not whole. The room is used again.
#[inline(always)]
pub(crate) fn explain_tap(
    room: &mut Line,
    text: &mut String,
    table: &FareTable,
    clock: &Clock,
    explainer: &mut Explainer,
    tap: &TapFields,
) -> Result<(), AllocError>
    requires clock { clock.now ≡ table.now.zone }
    requires may { MayExplain table.now explainer.old (tap.now ∷ []) }
    ensures { OnOk result (Explains table.now explainer.old (tap.now ∷ []) explainer.new
        (λ line. string_bytes text.new ≡ string_bytes text.old ++ line)) }
{
    go_on_to(explainer, token_of(tap));
    explainer.write_posted(room, text, table, clock, tap.validator, tap.moment)?;
    Ok(())
}

/// If an allocation fails, the lines are not whole.
pub(crate) fn explain_taps(
    text: &mut String,
    table: &FareTable,
    clock: &Clock,
    explainer: &mut Explainer,
    taps: &[TapFields],
) -> Result<(), AllocError>
    requires clock { clock.now ≡ table.now.zone }
    requires may { MayExplain table.now explainer.old taps.now }
    ensures { OnOk result (Explains table.now explainer.old taps.now explainer.new
        (λ lines. string_bytes text.new ≡ string_bytes text.old ++ lines)) }
{
    let mut room = Line::new();
    for tap in taps {
        explain_tap(&mut room, text, table, clock, explainer, tap)?;
    }
    Ok(())
}

/// Posts taps of nondecreasing tokens, from the explainer's on, and appends their lines. Before each
/// the text goes out if it is a piece. It has room for a piece and a line, so that no memory is
/// taken.
pub(crate) fn write_taps<W: Write>(
    text: &mut String,
    table: &FareTable,
    clock: &Clock,
    explainer: &mut Explainer,
    taps: &[TapFields],
    out: &mut W,
) -> Result<(), PrintFault>
    requires clock { clock.now ≡ table.now.zone }
    requires may { MayExplain table.now explainer.old taps.now }
    ensures explained { OnOk result (Explains table.now explainer.old taps.now explainer.new
        (GoesOut (W.contents out.old) (string_bytes text.old) (W.contents out.new)
        (string_bytes text.new))) }
    ensures started { OnErr result (HaveLines table.now explainer.old taps.now
        (λ lines. Begins (W.contents out.old) (W.contents out.new)
        (string_bytes text.old ++ lines))) }
    ensures fault { IfErr result (λ fault. fault ≡ ForWrite) }
{
    let mut room = Line::new();
    for tap in taps {
        pass_piece(text, out)?;
        // The text has room for a line, so that none is refused.
        let Ok(()) = explain_tap(&mut room, text, table, clock, explainer, tap) else {
            return Err(PrintFault::Write);
        };
    }
    Ok(())
}
