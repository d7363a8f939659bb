//! The lines of a part after its front: those of tokens, or those of a ledger's entries.

ghost use Rattle.std.specs.Prelude.{◌≡◌, ◌<◌, option_map};
ghost use Rattle.part_texts.specs.EntryLines.{entry_token_in, first_of};
ghost use Rattle.part_texts.specs.FrontSteps.{entry_step, part_end, token_step};
ghost use Rattle.part_texts.specs.Fronts.{may_follow};
ghost use Rattle.part_texts.specs.inside.Fronts.{TakesAs, fronts_view};
ghost use Rattle.report_texts.specs.Forms.{token_read};

use crate::fronts::{Fronts, Refusal, Stage, added, are_same};
use crate::seen::{Seen, seen_of};
use ledger_fields::row_fields;
use line_forms::form::FormOf;
use report_texts::Wrong;
use report_texts::forms::{TokenDigits, token_line_in};
use tap_views::Token;

fn front_token(line: &[u8]) -> Option<Token>
    ensures { result ≡ option_map first_of (token_read line.now) }
{
    let (token, _) = TokenDigits.read(line)?;
    Some(token)
}

/// Most lines have the digits of the line before, which are not decoded again.
fn entry_token_in(seen: &mut Option<Seen>, line: &[u8]) -> Option<Token>
    ensures { result ≡ entry_token_in line.now }
{
    let fields = row_fields(line)?;
    if let Some(known) = &*seen {
        if fields.token == known.digits.as_slice() {
            return Some(known.token);
        }
    }
    let token = front_token(line)?;
    *seen = seen_of(token);
    Some(token)
}

fn may_follow(is_first: bool, last: Option<Token>, token: Token) -> bool
    ensures { result ≡ may_follow is_first last token }
{
    match last {
        None => true,
        Some(last) => {
            if is_first {
                last < token
            } else {
                !(token < last)
            }
        }
    }
}

impl Fronts {
    pub(crate) fn take_entry(&mut self, is_first: bool, line: &[u8]) -> Result<(), Refusal>
        ensures { TakesAs (entry_step is_first (fronts_view self.old) line.now)
            (fronts_view self.new) result }
    {
        let token = entry_token_in(&mut self.seen, line).ok_or(Refusal::Wrong(Wrong::Form))?;
        if !may_follow(is_first, self.last, token) {
            return Err(Refusal::Wrong(Wrong::Order));
        }
        self.stage = Stage::Entries { is_first: false };
        self.last = Some(token);
        Ok(())
    }

    pub(crate) fn take_token(&mut self, left: u64, line: &[u8]) -> Result<(), Refusal>
        requires { 0 < left }
        ensures { TakesAs (token_step left (fronts_view self.old) line.now) (fronts_view self.new)
            result }
    {
        let sum = token_line_in(line).ok_or(Refusal::Wrong(Wrong::Form))?;
        if !may_follow(true, self.last, sum.token) {
            return Err(Refusal::Wrong(Wrong::Order));
        }
        let so_far = added(&self.so_far, &sum.totals).ok_or(Refusal::Wrong(Wrong::Totals))?;
        self.stage = Stage::Tokens { left: left - 1 };
        self.so_far = so_far;
        self.last = Some(sum.token);
        Ok(())
    }

    /// What is wrong if the part ends here.
    pub(crate) fn end(&self) -> Option<Wrong>
        ensures { result ≡ part_end (fronts_view self.now) }
    {
        match self.stage {
            Stage::Tokens { left: 0 } if are_same(&self.part, &self.so_far) => None,
            Stage::Tokens { left: 0 } => Some(Wrong::Totals),
            Stage::Entries { is_first: _ } => None,
            _ => Some(Wrong::Form),
        }
    }
}
