//! Sums to which entries are added one by one.

ghost use Rattle.histories.specs.{SumsByKey.sums_by_token, declared.entry.Entry.Entry as AnEntry};
ghost use Rattle.ledger_check.specs.OpenSums.{AreOpenSums, IsRunOf, IsSplitAt};
ghost use Rattle.ledger_check.specs.Sums.{AreSumsOf};
ghost use Rattle.ledger_check.specs.inside.OpenSums.{AreFew, AreUpTo, HasRoomFor};
ghost use Rattle.std.specs.Prelude.{◌≡◌, ◌+◌, ◌<◌, ◌≤◌, ◌^◌, ◌++◌, ◌∷◌, ℕ, [], List, IfOk, OnOk};
ghost use Rattle.std.specs.Prelude.{length};
ghost use Rattle.tap_views.specs.Token.{Fits};

use histories::{Entry, HashSeed, Tally, TokenSums, Totals, ValidatorSum, ValidatorTallies};
use std::alloc::Global;
use std::cmp::Ordering;
use tap_views::{NoMemory, Token};

/// The sums of entries: by token, by validator and of all.
#[derive(Drop)]
pub struct EntrySums {
    /// The tokens in increasing order, each with its sums.
    pub tokens: TokenSums,
    /// The validators in increasing order, each with its sums.
    pub validators: Vec<ValidatorSum>,
    pub totals: Totals,
}

/// A token, and what its entries come to.
#[derive(Clone, Copy)]
pub(crate) struct OpenToken {
    token: Token,
    tally: Tally,
}

/// The sums of the entries that were added, which come token by token.
#[derive(Drop)]
pub(crate) struct OpenSums {
    /// The tokens before the last one, in increasing order, each with its sums.
    tokens: TokenSums,
    last: Option<OpenToken>,
    /// The sums of all entries by validator.
    validators: ValidatorTallies,
    /// The sums of all entries.
    totals: Tally,
}

fn closed_tokens(
    alloc: Global,
    tokens: TokenSums,
    last: Option<OpenToken>,
) -> Result<TokenSums, NoMemory>
    requires { (entries : List AnEntry) × IsSplitAt entries tokens last
        × (length entries ≤ 2 ^ 62) }
    ensures { IfOk result (λ closed. (entries : List AnEntry) → IsSplitAt entries tokens last
        → closed ≡ sums_by_token entries) }
{
    let Some(last) = last else {
        return Ok(tokens);
    };
    let mut tokens = tokens;
    tokens.push(alloc, last.token, &last.tally)?;
    Ok(tokens)
}

impl OpenSums {
    pub(crate) fn new(alloc: Global, seed: HashSeed) -> OpenSums
        ensures { AreOpenSums [] result }
    {
        OpenSums {
            tokens: TokenSums::new(alloc),
            last: None,
            validators: ValidatorTallies::new(alloc, seed),
            totals: Tally::new(),
        }
    }

    fn next_run(&mut self, alloc: Global, token: Token) -> Result<OpenToken, NoMemory>
        requires room { HasRoomFor token self.old }
        requires fits { Fits token }
        ensures run { IfOk result (λ held. (entries : List AnEntry) → AreOpenSums entries self.old
            → AreUpTo token entries
            → (held.token ≡ token) × IsRunOf entries self.new.tokens held) }
        ensures validators { self.new.validators ≡ self.old.validators }
        ensures totals { self.new.totals ≡ self.old.totals }
    {
        let none = OpenToken {
            token,
            tally: Tally::new(),
        };
        let Some(last) = self.last else {
            return Ok(none);
        };
        match last.token.cmp(&token) {
            Ordering::Less => {
                self.tokens.push(alloc, last.token, &last.tally)?;
                Ok(none)
            }
            Ordering::Equal => Ok(last),
            Ordering::Greater => Ok(none),
        }
    }

    /// Adds an entry, whose token is not below those of the entries before it.
    pub(crate) fn add(&mut self, alloc: Global, entry: &Entry) -> Result<(), NoMemory>
        requires room { HasRoomFor entry.now.token self.old }
        requires fits { Fits entry.now.token }
        ensures { OnOk result ((entries : List AnEntry) → AreOpenSums entries self.old
            → AreUpTo entry.now.token entries
            → AreOpenSums (entries ++ entry.now ∷ []) self.new) }
    {
        let mut held = self.next_run(alloc, entry.token)?;
        held.tally.add(entry.reply());
        self.last = Some(held);
        self.totals.add(entry.reply());
        self.validators.add(entry)?;
        Ok(())
    }

    pub(crate) fn into_sums(self, alloc: Global) -> Result<EntrySums, NoMemory>
        requires { AreFew self }
        ensures { IfOk result (λ sums. (entries : List AnEntry) → AreOpenSums entries self
            → AreSumsOf entries sums) }
    {
        let OpenSums {
            tokens,
            last,
            validators,
            totals,
        } = self;
        let tokens = closed_tokens(alloc, tokens, last)?;
        let validators = validators.sums(alloc)?;
        Ok(EntrySums {
            tokens,
            validators,
            totals: totals.totals(),
        })
    }
}
