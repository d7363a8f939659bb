//! A walk over a ledger's lines that goes on after a wrong one.

ghost use Rattle.fare_texts.specs.Explainers.{HasExplained};
ghost use Rattle.histories.specs.{Entry.own, declared.entry.Entry.Entry as AnEntry};
ghost use Rattle.ledger_check.specs.{FullCheckStates.HasRunExplainer, FullChecks.decreases_after};
ghost use Rattle.ledger_check.specs.FullChecks.{remark_for, remark_text, no_line_text, wants_text};
ghost use Rattle.ledger_check.specs.{Lines.IsLine, Orders.tap_of_entry};
ghost use Rattle.ledger_check.specs.inside.FullChecks.{HasJudged, IsNextTap, right_finding};
ghost use Rattle.std.specs.Prelude.{◌≡◌, ◌<◌, ◌≤◌, ◌^◌, ◌++◌, [], ℕ, List, IfOk, OnOk, length};
ghost use Rattle.std.specs.Prelude.{MatchOption, string_bytes};
ghost use Rattle.tap_views.specs.Token.{Fits};
ghost use Rattle.tariffs.specs.Fares.{Fares};

use crate::bytes::same_bytes;
use crate::exact::{cents_in, exact_tap};
use crate::tap::{Tap, read_tap};
use fare_texts::{Explainer, write_line};
use histories::Entry;
use ledger_fields::row_fields;
use std::alloc::{AllocError, Global};
use std::cmp::Ordering;
use tap_views::{NoMemory, TapFields, Token};
use tariffs::{Clock, FareTable};

/// A tap that a line names.
#[derive(Clone, Copy)]
pub(crate) struct CountedTap {
    /// The entry that the rules give it.
    pub(crate) entry: Entry,
    /// The cents of the line, or 0 if these are not a number.
    pub(crate) cents: u32,
}

impl CountedTap {
    pub(crate) fn fields(self) -> TapFields
        ensures { result ≡ tap_of_entry self.entry }
    {
        TapFields {
            token: self.entry.token.bytes(),
            validator: self.entry.validator,
            moment: self.entry.moment,
        }
    }
}

/// The remark on a line.
#[derive(Clone, Copy)]
pub(crate) enum Remark {
    /// It is right.
    Nothing,
    /// Its tap should have another line.
    Wants,
    /// It is not a ledger line: it names no tap, or its token is less than that of the tap before.
    NoLine,
}

/// What a check finds of a line.
#[derive(Clone, Copy)]
pub(crate) struct LineFinding {
    pub(crate) tap: Option<CountedTap>,
    pub(crate) remark: Remark,
    /// Whether it has the form of a ledger's line, which decides only how it is called if wrong.
    pub(crate) has_form: bool,
}

/// A line that names no tap.
pub(crate) const NO_LINE: LineFinding = LineFinding {
    tap: None,
    remark: Remark::NoLine,
    has_form: false,
};

/// What a tap makes after the taps before it.
#[derive(Clone, Copy)]
struct NextTap {
    explainer: Explainer,
    entry: Entry,
    /// Whether its token is less than that of the tap before.
    is_decrease: bool,
}

fn remark_for(is_decrease: bool, same: bool) -> Remark
    ensures { result ≡ remark_for is_decrease same }
{
    if is_decrease {
        Remark::NoLine
    } else if same {
        Remark::Nothing
    } else {
        Remark::Wants
    }
}

#[tactic(auto, unfolding(crate::specs::FullChecks::no_line_text))]
fn write_no_line(text: &mut String, number: u64) -> Result<(), AllocError>
    ensures { OnOk result (string_bytes text.new ≡ string_bytes text.old ++ no_line_text number) }
{
    write!(text, "line {number} is no ledger line\n")
}

#[tactic(auto, unfolding(crate::specs::FullChecks::wants_text))]
fn write_wants(text: &mut String, number: u64, wanted: &str) -> Result<(), AllocError>
    ensures { OnOk result (string_bytes text.new
        ≡ string_bytes text.old ++ wants_text number wanted.now) }
{
    write!(text, "line {number} wants {wanted}")
}

pub(crate) fn write_remark(
    text: &mut String,
    number: u64,
    remark: Remark,
    wanted: &str,
) -> Result<(), AllocError>
    ensures { OnOk result (string_bytes text.new
        ≡ string_bytes text.old ++ remark_text number remark wanted.now) }
{
    match remark {
        Remark::Nothing => Ok(()),
        Remark::Wants => write_wants(text, number, wanted),
        Remark::NoLine => write_no_line(text, number),
    }
}

fn explainer_after(last: &Option<Explainer>, token: Token) -> (Explainer, bool)
    requires { Fits token }
    ensures token { result.0.token ≡ token }
    ensures explained { (fares : Fares) (run : List AnEntry) → HasRunExplainer fares last.now run
        → HasExplained fares result.0 (own token run) }
    ensures is_decrease { (fares : Fares) (run : List AnEntry) → HasRunExplainer fares last.now run
        → result.1 ≡ decreases_after run token }
{
    let Some(explainer) = *last else {
        return (Explainer::of(token), false);
    };
    match explainer.token.cmp(&token) {
        Ordering::Less => (Explainer::of(token), false),
        Ordering::Equal => (explainer, false),
        Ordering::Greater => (Explainer::of(token), true),
    }
}

fn write_next_tap(
    last: &Option<Explainer>,
    table: &FareTable,
    clock: &Clock,
    tap: Tap,
    wanted: &mut String,
) -> Result<NextTap, AllocError>
    requires clock { clock.now ≡ table.now.zone }
    requires fits { Fits tap.token }
    requires early { tap.moment < 4_102_444_800_000 }
    requires run { (run : List AnEntry) × HasRunExplainer table.now last.now run
        × (length run < 2 ^ 63) }

    // For all entries that the explainer represents.
    ensures { IfOk result (λ next. (run : List AnEntry) → HasRunExplainer table.now last.now run
        → IsNextTap table.now run tap (string_bytes wanted.new) next) }
{
    let (mut explainer, is_decrease) = explainer_after(last, tap.token);
    let (entry, reason) = explainer.post_next(table, clock, tap.validator, tap.moment);
    wanted.clear();
    write_line(wanted, table, tap.token, explainer.number, &entry, &reason)?;
    Ok(NextTap {
        explainer,
        entry,
        is_decrease,
    })
}

/// The explainer of the last tap's token, and the line that this tap should have.
#[derive(Drop)]
pub(crate) struct Walk {
    explainer: Option<Explainer>,
    pub(crate) wanted: String,
    /// A moment, printed again to be compared.
    again: String,
}

impl Walk {
    pub(crate) fn new(alloc: Global) -> Walk
        ensures { (fares : Fares) → HasRunExplainer fares result.explainer [] }
    {
        Walk {
            explainer: None,
            wanted: String::new(alloc),
            again: String::new(alloc),
        }
    }

    /// Most lines are right, and are not read again.
    fn right_tap(
        &mut self,
        table: &FareTable,
        clock: &Clock,
        line: &[u8],
    ) -> Result<Option<CountedTap>, AllocError>
        requires clock { clock.now ≡ table.now.zone }
        requires line { IsLine line.now }
        requires short { length line.now ≤ 255 }
        requires run { (run : List AnEntry) × HasRunExplainer table.now self.old.explainer run
            × (length run < 2 ^ 63) }
        ensures { IfOk result (λ found. MatchOption found (self.new.explainer ≡ self.old.explainer)
            (λ tap. (run : List AnEntry) → HasRunExplainer table.now self.old.explainer run
            → length run < 2 ^ 63 → HasJudged table.now run line.now self.new (right_finding tap))) }
    {
        let Some(tap) = read_tap(line) else {
            return Ok(None);
        };
        let next = write_next_tap(&self.explainer, table, clock, tap, &mut self.wanted)?;
        if next.is_decrease || !same_bytes(line, self.wanted.as_bytes()) {
            return Ok(None);
        }
        self.explainer = Some(next.explainer);
        Ok(Some(CountedTap {
            entry: next.entry,
            cents: next.entry.cents,
        }))
    }

    fn judge_exactly(
        &mut self,
        table: &FareTable,
        clock: &Clock,
        line: &[u8],
    ) -> Result<LineFinding, AllocError>
        requires clock { clock.now ≡ table.now.zone }
        requires line { IsLine line.now }
        requires short { length line.now ≤ 255 }
        requires run { (run : List AnEntry) × HasRunExplainer table.now self.old.explainer run
            × (length run < 2 ^ 63) }
        ensures { IfOk result (λ finding. (run : List AnEntry)
            → HasRunExplainer table.now self.old.explainer run
            → HasJudged table.now run line.now self.new finding) }
    {
        let Some((tap, rest)) = exact_tap(line, &mut self.again)? else {
            return Ok(NO_LINE);
        };
        let next = write_next_tap(&self.explainer, table, clock, tap, &mut self.wanted)?;
        self.explainer = Some(next.explainer);
        let cents = cents_in(rest).unwrap_or(0);
        let is_same = same_bytes(line, self.wanted.as_bytes());
        Ok(LineFinding {
            tap: Some(CountedTap {
                entry: next.entry,
                cents,
            }),
            remark: remark_for(next.is_decrease, is_same),
            has_form: row_fields(line).is_some(),
        })
    }

    pub(crate) fn judge(
        &mut self,
        table: &FareTable,
        clock: &Clock,
        line: &[u8],
    ) -> Result<LineFinding, AllocError>
        requires clock { clock.now ≡ table.now.zone }
        requires line { IsLine line.now }
        requires short { length line.now ≤ 255 }
        requires run { (run : List AnEntry) × HasRunExplainer table.now self.old.explainer run
            × (length run < 2 ^ 63) }
        ensures { IfOk result (λ finding. (run : List AnEntry)
            → HasRunExplainer table.now self.old.explainer run → length run < 2 ^ 63
            → HasJudged table.now run line.now self.new finding) }
    {
        if let Some(tap) = self.right_tap(table, clock, line)? {
            return Ok(LineFinding {
                tap: Some(tap),
                remark: Remark::Nothing,
                has_form: true,
            });
        }
        let finding = self.judge_exactly(table, clock, line)?;
        Ok(finding)
    }
}
