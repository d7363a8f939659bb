//! The accounts of a book, by token: the one place that knows their kind of map.

ghost use Rattle.account_rule.specs.declared.tap.TapIn.{TapIn};
ghost use Rattle.fare_caps.specs.CapMeanings.{capped_rules_of};
ghost use Rattle.fare_caps.specs.Represents.{Represents, no_further};
ghost use Rattle.histories.specs.{Counts.token_counts, declared.entry.Entry.Entry};
ghost use Rattle.shard_book.specs.declared.accounts.KeptAccount.{KeptAccount};
ghost use Rattle.shard_book.specs.inside.Accounts.{further_at, kept_at, pairs_of, HasKept, IsKept};
ghost use Rattle.shard_book.specs.inside.Accounts.{HasPositionFor, IsPosition, StaysKept, Steps};
ghost use Rattle.shard_book.specs.inside.Accounts.{IsCounting, StillKept, capped_of};
ghost use Rattle.shard_book.specs.inside.Counting.{AreCounted, AreSummed};
ghost use Rattle.shard_book.specs.inside.Packed.{HasToken, KeepPositions, tokens_of};
ghost use Rattle.std.specs.Option.{ForSome};
ghost use Rattle.std.specs.Prelude.{◌≡◌, ◌<◌, ◌≤◌, ℕ, List, [], ◌∷◌, ◌++◌, length, map, is_some};
ghost use Rattle.std.specs.Prelude.{IfNone, IfOk, IfSome, OnOk, OnErr, None, Some, true, false};
ghost use Rattle.std.specs.Prelude.{IsTrue, slice_get};
ghost use Rattle.tap_views.specs.{Token.bytes_of, Token.token_eq, declared.token.Token.Token};
ghost use Rattle.tariffs.specs.Fares.{Fares, has_caps_or_prices};

use account_rule::{Account, Reply, TapIn};
use fare_caps::{CappedAccount, Further};
use histories::{Counts, HashSeed, TokenCounts};
use indexmap::IndexMap;
use indexmap::map::Entry as MapEntry;
use std::alloc::Global;
use tap_views::{NoMemory, Token};
use tariffs::{Clock, FareTable, Mode};

/// The most accounts of a book, below 2^32: a history's entry has 32 bits for the account's index.
const MAX_ACCOUNTS: usize = 4_294_967_295;

/// What is stored of one token: its account, and the counts of its entries.
#[derive(Clone, Copy, Debug, PartialEq, Eq)]
pub(crate) struct KeptAccount {
    pub(crate) account: Account,
    pub(crate) counts: Counts,
}

/// An account and counts for each token that has taps, or whose taps were looked up.
#[derive(Drop)]
pub(crate) struct Accounts {
    pub(crate) map: IndexMap<Token, KeptAccount, HashSeed>,
    /// What the accounts store if the table has caps or prices. Empty otherwise, so that an account
    /// fills a cache line.
    further: IndexMap<Token, Further, HashSeed>,
    /// False once one of the counts would be too large.
    counting: bool,
}

impl Accounts {
    #[tactic(auto, unfolding(crate::specs::inside::Accounts::kept_at, crate::specs::inside::Accounts::further_at))]
    pub(crate) fn new(alloc: Global, seed: HashSeed) -> Self
        ensures kept { (token : Token) → kept_at result token ≡ None }
        ensures further { (token : Token) → further_at result token ≡ no_further }
    {
        Accounts {
            map: IndexMap::with_hasher(alloc, seed),
            further: IndexMap::with_hasher(alloc, seed),
            counting: true,
        }
    }

    pub(crate) fn seed(&self) -> HashSeed {
        *self.map.hasher()
    }

    #[tactic(auto, unfolding(crate::specs::inside::Accounts::kept_at))]
    pub(crate) fn account_of(&self, token: Token) -> CappedAccount
        ensures { (fares : Fares) (name : List ℕ) (taps : List TapIn)
            → IsKept (capped_rules_of fares name) (kept_at self.now token)
            (further_at self.now token) taps
            → Represents (capped_rules_of fares name) result taps }
    {
        match self.map.get(&token) {
            Some(kept) => CappedAccount {
                account: kept.account,
                further: self.further_of(token),
            },
            None => CappedAccount::fresh(),
        }
    }

    #[tactic(auto, unfolding(crate::specs::inside::Accounts::further_at))]
    fn further_of(&self, token: Token) -> Further
        ensures { result ≡ further_at self.now token }
    {
        match self.further.get(&token) {
            Some(further) => *further,
            None => Further::none(),
        }
    }

    /// A look-up, kept out of its callers: nearly all known indices and hints are right. With the
    /// most accounts it reports an allocation failure.
    #[cold]
    #[inline(never)]
    #[tactic(auto, unfolding(crate::specs::inside::Accounts::kept_at))]
    pub(crate) fn open(&mut self, token: Token) -> Result<u32, NoMemory>
        ensures made { IfOk result (HasPositionFor self.old self.new token) }
        ensures others { OnOk result ((other : Token) → token_eq token other ≡ false
            → kept_at self.new other ≡ kept_at self.old other) }
        ensures counting { self.new.counting ≡ self.old.counting }
        ensures further { self.new.further ≡ self.old.further }
        ensures positions { KeepPositions (tokens_of self.old) (tokens_of self.new) }
        ensures err { OnErr result ((other : Token)
            → kept_at self.new other ≡ kept_at self.old other) }
    {
        let last = self.map.len();
        if last >= MAX_ACCOUNTS {
            return Err(NoMemory);
        }
        match self.map.entry(token)? {
            MapEntry::Occupied(kept) => Ok(kept.index() as u32),
            MapEntry::Vacant(position) => {
                position.insert(KeptAccount {
                    account: CappedAccount::fresh().account,
                    counts: Counts::new(),
                });
                Ok(last as u32)
            }
        }
    }

    #[inline(always)]
    #[tactic(auto, unfolding(crate::specs::inside::Accounts::kept_at))]
    pub(crate) fn is_at(&self, position: u32, token: Token) -> bool
        ensures { IsTrue result → IsPosition self.now token position }
    {
        match self.map.get_index(position as usize) {
            Some((there, _)) => *there == token,
            None => false,
        }
    }

    #[inline(always)]
    fn position(&mut self, token: Token, known: u32) -> Result<u32, NoMemory>
        ensures made { IfOk result (HasPositionFor self.old self.new token) }
        ensures others { OnOk result ((other : Token) → token_eq token other ≡ false
            → kept_at self.new other ≡ kept_at self.old other) }
        ensures counting { self.new.counting ≡ self.old.counting }
        ensures further { self.new.further ≡ self.old.further }
        ensures positions { KeepPositions (tokens_of self.old) (tokens_of self.new) }
        ensures err { OnErr result ((other : Token)
            → kept_at self.new other ≡ kept_at self.old other) }
    {
        if self.is_at(known, token) {
            Ok(known)
        } else {
            self.open(token)
        }
    }

    /// No look-up is needed if the account is at the known index; another one costs time alone. The
    /// token comes with its bytes, as the tap has them, so that no step writes them down.
    pub(crate) fn step(
        &mut self,
        table: &FareTable,
        clock: &Clock,
        token: Token,
        bytes: &[u8],
        tap: TapIn,
        known: u32,
    ) -> Result<(u32, Reply), NoMemory>
        requires bytes { bytes.now ≡ bytes_of token }
        requires clock { clock.now ≡ table.now.zone }
        requires mode { ForSome tap.mode (λ mode. mode.position < length table.now.meaning.modes) }
        requires early { tap.moment < 4_102_444_800_000 }
        requires kept { (taps : List TapIn) × HasKept table.now self.old token taps }

        ensures steps { IfOk result (λ done. Steps table.now token tap self.old self.new done.1) }
        ensures counting { IsCounting self.new → IsCounting self.old }
        ensures position { IfOk result
            (λ done. slice_get (tokens_of self.new) done.0 ≡ Some token) }
        ensures positions { KeepPositions (tokens_of self.old) (tokens_of self.new) }
        ensures err { OnErr result ((other : Token) → StillKept self.old self.new other) }
    {
        if table.has_caps_or_prices_at(tap.moment) {
            return self.step_under_caps(table, clock, token, bytes, tap.mode, tap.moment, known);
        }
        let position = self.position(token, known)?;
        let reply = self.plain_step(table, clock, token, bytes, tap, position);
        Ok((position, reply))
    }

    /// The table has neither caps nor prices.
    #[inline(always)]
    #[tactic(auto, unfolding(crate::specs::inside::Accounts::kept_at))]
    fn plain_step(
        &mut self,
        table: &FareTable,
        clock: &Clock,
        token: Token,
        bytes: &[u8],
        tap: TapIn,
        position: u32,
    ) -> Reply
        requires none { has_caps_or_prices table.now ≡ false }
        requires there { IsPosition self.old token position }
        requires bytes { bytes.now ≡ bytes_of token }
        requires clock { clock.now ≡ table.now.zone }
        requires mode { ForSome tap.mode (λ mode. mode.position < length table.now.meaning.modes) }
        requires early { tap.moment < 4_102_444_800_000 }
        requires kept { (taps : List TapIn) × HasKept table.now self.old token taps }
        ensures steps { Steps table.now token tap self.old self.new result }
        ensures tokens { tokens_of self.new ≡ tokens_of self.old }
    {
        let (_, kept) = self.map.pair_mut(position as usize);
        let reply = kept.account.step(table, clock, bytes, tap);
        let was_counted = kept.counts.add(reply);
        self.counting = self.counting & was_counted;
        reply
    }

    /// Kept out of `step`, with scalars for the tap: a local of `step`, or a tap whose address is
    /// taken, would cost a run without caps and prices some stores at each tap.
    #[cold]
    #[inline(never)]
    fn step_under_caps(
        &mut self,
        table: &FareTable,
        clock: &Clock,
        token: Token,
        bytes: &[u8],
        mode: Option<Mode>,
        moment: u64,
        known: u32,
    ) -> Result<(u32, Reply), NoMemory>
        requires bytes { bytes.now ≡ bytes_of token }
        requires clock { clock.now ≡ table.now.zone }
        requires mode { ForSome mode (λ mode. mode.position < length table.now.meaning.modes) }
        requires early { moment < 4_102_444_800_000 }
        requires kept { (taps : List TapIn) × HasKept table.now self.old token taps }
        ensures steps { IfOk result (λ done. Steps table.now token
            (record { moment = moment; mode = mode }) self.old self.new done.1) }
        ensures counting { IsCounting self.new → IsCounting self.old }
        ensures position { IfOk result
            (λ done. slice_get (tokens_of self.new) done.0 ≡ Some token) }
        ensures positions { KeepPositions (tokens_of self.old) (tokens_of self.new) }
        ensures err { OnErr result ((other : Token) → StillKept self.old self.new other) }
    {
        let position = self.position(token, known)?;
        let tap = TapIn { moment, mode };
        let reply = self.capped_step(table, clock, token, bytes, tap, position)?;
        Ok((position, reply))
    }

    #[tactic(auto, unfolding(crate::specs::inside::Accounts::kept_at, crate::specs::inside::Accounts::further_at))]
    fn capped_step(
        &mut self,
        table: &FareTable,
        clock: &Clock,
        token: Token,
        bytes: &[u8],
        tap: TapIn,
        position: u32,
    ) -> Result<Reply, NoMemory>
        requires there { IsPosition self.old token position }
        requires bytes { bytes.now ≡ bytes_of token }
        requires clock { clock.now ≡ table.now.zone }
        requires mode { ForSome tap.mode (λ mode. mode.position < length table.now.meaning.modes) }
        requires early { tap.moment < 4_102_444_800_000 }
        requires kept { (taps : List TapIn) × HasKept table.now self.old token taps }
        ensures steps { IfOk result (Steps table.now token tap self.old self.new) }
        ensures counting { IsCounting self.new → IsCounting self.old }
        ensures tokens { tokens_of self.new ≡ tokens_of self.old }
        ensures err { OnErr result ((other : Token) → StaysKept self.old self.new other) }
    {
        let mut account = self.capped_at(position, token);
        let reply = account.step(table, clock, bytes, tap);
        self.further.insert(token, account.further)?;
        let (_, kept) = self.map.pair_mut(position as usize);
        kept.account = account.account;
        let was_added = kept.counts.add(reply);
        self.counting = self.counting & was_added;
        Ok(reply)
    }

    #[tactic(auto, unfolding(crate::specs::inside::Accounts::kept_at))]
    fn capped_at(&self, position: u32, token: Token) -> CappedAccount
        requires { IsPosition self.now token position }
        ensures { (kept : KeptAccount) → kept_at self.now token ≡ Some kept
            → result ≡ capped_of kept (further_at self.now token) }
    {
        match self.map.get_index(position as usize) {
            Some((_, kept)) => CappedAccount {
                account: kept.account,
                further: self.further_of(token),
            },
            None => unreachable!(),
        }
    }

    #[inline(always)]
    pub(crate) fn token_at(&self, position: u32) -> Token
        requires { HasToken (tokens_of self.now) position }
        ensures { slice_get (tokens_of self.now) position ≡ Some result }
    {
        match self.map.get_index(position as usize) {
            Some((token, _)) => *token,
            None => unreachable!(),
        }
    }

    pub(crate) fn is_counting(&self) -> bool
        ensures { IsTrue result → IsCounting self.now }
    {
        self.counting
    }

    #[tactic(auto, unfolding(crate::specs::inside::Accounts::pairs_of))]
    pub(crate) fn push_counts(&self, list: &mut Vec<TokenCounts>) -> Result<(), NoMemory>
        ensures list { OnOk result
            (map token_counts list.new.items ≡ map token_counts list.old.items
            ++ pairs_of self.now) }
        ensures summed { (entries : List Entry) → AreCounted self.now entries
            → AreSummed entries (pairs_of self.now) }
    {
        let kept_tokens = self.map.iter();
        list.reserve(self.map.len())?;
        for (token, kept) in kept_tokens {
            if kept.counts.has_taps() {
                list.push(TokenCounts {
                    token: *token,
                    counts: kept.counts,
                })?;
            }
        }
        Ok(())
    }
}

/// A kept account fills a cache line.
const _: () = prove!(size_of::<KeptAccount>() == 64);
