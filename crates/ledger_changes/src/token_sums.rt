//! The corrections of one token, summed, and their line.

ghost use Rattle.ledger_changes.specs.{Rows.is_same_text, Texts.is_only_before};
ghost use Rattle.ledger_changes.specs.Tokens.{add_changes, ended_line, is_in_both, no_sums};
ghost use Rattle.ledger_changes.specs.Tokens.{sums_for, sums_line, token_line};
ghost use Rattle.ledger_changes.specs.inside.Views.{charge_of, pair_of, sum_in, token_sum_of};
ghost use Rattle.std.specs.Prelude.{◌≡◌, ◌++◌, ◌∷◌, [], IfOk, IfSome, OnOk, option_map};

use crate::correction_text::{cents_of, write_difference, write_number};
use crate::pairs::LinePair;
use crate::row::{LineCharge, owned};
use std::alloc::{AllocError, Global};

/// The corrections of one token, summed.
#[derive(Drop)]
pub(crate) struct TokenSums {
    token: Vec<u8>,
    /// How many lines only the new bill has.
    added: u64,
    /// How many lines only the old bill has.
    removed: u64,
    /// How many lines both bills have, and charge otherwise.
    changed: u64,
    /// The cents of these lines in the old bill.
    before: u64,
    /// The cents of these lines in the new bill.
    after: u64,
}

/// Whether only the first bill has the line.
fn is_only_before(before: &Option<LineCharge>, after: &Option<LineCharge>) -> bool
    ensures { result
        ≡ is_only_before (option_map charge_of before.now) (option_map charge_of after.now) }
{
    matches!((before, after), (Some(_), None))
}

fn is_in_both(before: &Option<LineCharge>, after: &Option<LineCharge>) -> bool
    ensures { result
        ≡ is_in_both (option_map charge_of before.now) (option_map charge_of after.now) }
{
    matches!((before, after), (Some(_), Some(_)))
}

impl TokenSums {
    fn begin(alloc: Global, token: &[u8]) -> Result<TokenSums, AllocError>
        ensures { IfOk result (λ sums. token_sum_of sums ≡ no_sums token.now) }
    {
        let token = owned(alloc, token)?;
        Ok(TokenSums {
            token,
            added: 0,
            removed: 0,
            changed: 0,
            before: 0,
            after: 0,
        })
    }

    fn is_of(&self, token: &[u8]) -> bool
        ensures { result ≡ is_same_text self.now.token.items token.now }
    {
        self.token.as_slice().cmp(token).is_eq()
    }

    /// No ledger is so long that there are none.
    pub(crate) fn with(self, pair: &LinePair) -> Option<TokenSums>
        ensures { IfSome result (λ sums. token_sum_of sums
            ≡ add_changes (token_sum_of self) (pair_of pair.now ∷ [])) }
    {
        let added = is_only_before(&pair.after, &pair.before);
        let removed = is_only_before(&pair.before, &pair.after);
        let changed = is_in_both(&pair.before, &pair.after);
        Some(TokenSums {
            token: self.token,
            added: self.added.checked_add(u64::from(added))?,
            removed: self.removed.checked_add(u64::from(removed))?,
            changed: self.changed.checked_add(u64::from(changed))?,
            before: self.before.checked_add(u64::from(cents_of(&pair.before)))?,
            after: self.after.checked_add(u64::from(cents_of(&pair.after)))?,
        })
    }

    #[tactic(auto, unfolding(crate::specs::Tokens::token_line))]
    fn line(&self, alloc: Global) -> Result<Vec<u8>, AllocError>
        ensures { IfOk result (λ line. line.items
            ≡ token_line (token_sum_of self.now).token (token_sum_of self.now).sums) }
    {
        let mut line = Vec::new(alloc);
        line.extend_from_slice(&self.token)?;
        write_number(&mut line, self.added)?;
        write_number(&mut line, self.removed)?;
        write_number(&mut line, self.changed)?;
        write_number(&mut line, self.before)?;
        write_number(&mut line, self.after)?;
        write_difference(&mut line, self.before, self.after)?;
        line.extend_from_slice(b"\n")?;
        Ok(line)
    }
}

pub(crate) fn push_sums(
    alloc: Global,
    sums: &Option<TokenSums>,
    text: &mut Vec<u8>,
) -> Result<(), AllocError>
    ensures { OnOk result (text.new.items ≡ text.old.items ++ sums_line (sum_in sums.now)) }
{
    match sums {
        Some(sums) => {
            let line = sums.line(alloc)?;
            text.extend_from_slice(&line)?;
            Ok(())
        }
        None => Ok(()),
    }
}

/// The open sums, if they are the token's. Else their line is appended, and new ones begin.
pub(crate) fn sums_for(
    alloc: Global,
    last: Option<TokenSums>,
    token: &[u8],
    text: &mut Vec<u8>,
) -> Result<TokenSums, AllocError>
    ensures line { OnOk result
        (text.new.items ≡ text.old.items ++ ended_line (sum_in last) token.now) }
    ensures sums { IfOk result (λ sums. token_sum_of sums ≡ sums_for (sum_in last) token.now) }
{
    let Some(sums) = last else {
        return TokenSums::begin(alloc, token);
    };
    if sums.is_of(token) {
        return Ok(sums);
    }
    let next = TokenSums::begin(alloc, token)?;
    let line = sums.line(alloc)?;
    text.extend_from_slice(&line)?;
    Ok(next)
}
