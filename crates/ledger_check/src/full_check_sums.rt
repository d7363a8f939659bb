//! The sums of a full check.

ghost use Rattle.ledger_check.specs.{FullCheckStates.AreSums, FullChecks.TakenLine};
ghost use Rattle.ledger_check.specs.FullChecks.{charged_cents, end_text, taps_with, one_other};
ghost use Rattle.ledger_check.specs.FullChecks.{one_wrong, ruled_cents, wrong_text, wrong_token_of};
ghost use Rattle.ledger_check.specs.Orders.{IsOrderOf};
ghost use Rattle.std.specs.Prelude.{◌≡◌, ◌+◌, ◌-◌, ◌++◌, ◌∷◌, [], ℕ, List, IfOk, OnOk};
ghost use Rattle.std.specs.Prelude.{if◌then◌else◌, nat_eq, string_bytes};
ghost use Rattle.tap_views.specs.declared.encoder.TapFields.{TapFields};

use crate::legal::write_legal;
use crate::order::TapOrder;
use crate::walk::{CountedTap, LineFinding, Remark};
use std::alloc::AllocError;
use tap_views::Token;

/// The most lines of a ledger, the header line aside: 2 to the power of 62.
const MAX_LINES: u64 = 4_611_686_018_427_387_904;

/// The sums of the lines that a full check has taken.
#[derive(Clone, Copy)]
pub(crate) struct FullCheckSums {
    /// How many lines were taken, the first one included.
    pub(crate) lines: u64,
    pub(crate) wrong: u64,
    /// The token of the last wrong line that names a tap.
    last_wrong: Option<Token>,
    tokens: u64,
    /// The cents that the lines ask for.
    cents: u64,
    /// The cents that the rules give their taps.
    wanted: u64,
    pub(crate) order: TapOrder,
}

/// A sum over 64 bits counts as an allocation failure.
fn sum(a: u64, b: u64) -> Result<u64, AllocError>
    ensures { IfOk result (λ both. both ≡ a + b) }
{
    match a.checked_add(b) {
        Some(both) => Ok(both),
        None => Err(AllocError),
    }
}

pub(crate) fn one_wrong(remark: Remark) -> u64
    ensures { result ≡ one_wrong remark }
{
    match remark {
        Remark::Nothing => 0,
        Remark::Wants | Remark::NoLine => 1,
    }
}

fn wrong_token_of(last: Option<Token>, remark: Remark, tap: Option<CountedTap>) -> Option<Token>
    ensures { result ≡ wrong_token_of last remark tap }
{
    match (remark, tap) {
        (_, None) => last,
        (Remark::Nothing, Some(_)) => last,
        (Remark::Wants, Some(tap)) => Some(tap.entry.token),
        (Remark::NoLine, Some(tap)) => Some(tap.entry.token),
    }
}

fn one_other(last: Option<Token>, token: Option<Token>) -> u64
    ensures { result ≡ one_other last token }
{
    match (last, token) {
        (_, None) => 0,
        (None, Some(_)) => 1,
        (Some(last), Some(token)) => { if last == token { 0 } else { 1 } }
    }
}

fn charged_cents(tap: Option<CountedTap>) -> u64
    ensures { result ≡ charged_cents tap }
{
    match tap {
        None => 0,
        Some(tap) => u64::from(tap.cents),
    }
}

fn ruled_cents(tap: Option<CountedTap>) -> u64
    ensures { result ≡ ruled_cents tap }
{
    match tap {
        None => 0,
        Some(tap) => u64::from(tap.entry.cents),
    }
}

fn order_with(order: TapOrder, tap: Option<CountedTap>) -> Result<TapOrder, AllocError>
    ensures { IfOk result (λ after. (taps : List TapFields) → IsOrderOf taps order
        → IsOrderOf (taps_with taps tap) after) }
{
    match tap {
        None => Ok(order),
        Some(tap) => order.with(&tap.fields()),
    }
}

impl FullCheckSums {
    pub(crate) fn new() -> FullCheckSums
        ensures { AreSums result [] }
    {
        FullCheckSums {
            lines: 0,
            wrong: 0,
            last_wrong: None,
            tokens: 0,
            cents: 0,
            wanted: 0,
            order: TapOrder::new(),
        }
    }

    /// More than 2^62 lines count as an allocation failure.
    pub(crate) fn with(self, finding: LineFinding) -> Result<FullCheckSums, AllocError>
        ensures { IfOk result (λ sums. (taken : List TakenLine) (next : TakenLine)
            → next.finding ≡ finding → AreSums self taken → AreSums sums (next ∷ taken)) }
    {
        if self.lines >= MAX_LINES {
            return Err(AllocError);
        }
        let last_wrong = wrong_token_of(self.last_wrong, finding.remark, finding.tap);
        let wrong = sum(self.wrong, one_wrong(finding.remark))?;
        let tokens = sum(self.tokens, one_other(self.last_wrong, last_wrong))?;
        let cents = sum(self.cents, charged_cents(finding.tap))?;
        let wanted = sum(self.wanted, ruled_cents(finding.tap))?;
        let order = order_with(self.order, finding.tap)?;
        Ok(FullCheckSums {
            lines: self.lines + 1,
            wrong,
            last_wrong,
            tokens,
            cents,
            wanted,
            order,
        })
    }

    /// Appends `wrong 7 of 175098 lines, of 6 tokens; cents 34876671, wanted 34876380`.
    #[tactic(auto, unfolding(crate::specs::FullChecks::wrong_text))]
    fn write_wrong(self, text: &mut String, entries: u64) -> Result<(), AllocError>
        ensures { OnOk result (string_bytes text.new ≡ string_bytes text.old
            ++ wrong_text self.wrong entries self.tokens self.cents self.wanted) }
    {
        let wrong = self.wrong;
        let tokens = self.tokens;
        let cents = self.cents;
        let wanted = self.wanted;
        write!(
            text,
            "wrong {wrong} of {entries} lines, of {tokens} tokens; cents {cents}, wanted {wanted}\n"
        )
    }

    pub(crate) fn write_end(self, text: &mut String) -> Result<(), AllocError>
        ensures { OnOk result ((taken : List TakenLine) → AreSums self taken
            → string_bytes text.new ≡ string_bytes text.old ++ end_text taken) }
    {
        let entries = self.lines.saturating_sub(1);
        if self.wrong == 0 {
            write_legal(text, entries, self.order.early)
        } else {
            self.write_wrong(text, entries)
        }
    }
}
