//! The book of one shard: its table, its accounts and its whole history.

ghost use Rattle.fare_caps.specs.{CapMeanings.capped_rules_of, Represents.Represents};
ghost use Rattle.histories.specs.{Counts.token_counts, Entry.TokensFit, Entry.taps_of};
ghost use Rattle.histories.specs.History.{IsLegal};
ghost use Rattle.shard_book.specs.{Book.AreOfShard, Book.PostsTap, inside.Counting.AddsSums};
ghost use Rattle.std.specs.Prelude.{◌≡◌, ◌<◌, ◌≤◌, [], length, map, slice_get, IfOk, OnOk, OnErr};
ghost use Rattle.std.specs.Prelude.{IsTrue, Some};
ghost use Rattle.tap_views.specs.{Shards.shard_of_token, Token.bytes_of};

use crate::accounts::Accounts;
use crate::hints::Hints;
use crate::packed::PackedEntry;
use crate::prefetch::NO_POSITION;
use account_rule::{Reply, TapIn};
use fare_caps::CappedAccount;
use histories::{Entry, HashSeed, TokenCounts};
use std::alloc::Global;
use std::marker::Model;
use tap_views::{NoMemory, TapView, Token};
use tariffs::{Clock, FareTable};

/// The accounts and the history of one shard, which is legal at all times. Contracts see the table,
/// the shard, the number of shards and the list of entries.
#[derive(Drop)]
pub struct ShardBook {
    table: FareTable,
    shard: u32,
    shards: u32,
    pub(crate) accounts: Accounts,
    /// The entries in posting order.
    history: Vec<PackedEntry>,
    /// Where accounts may be, tried before their tokens are looked up.
    pub(crate) hints: Hints,
}

impl Model for ShardBook {
    ghost use Rattle.shard_book.specs.Book.{Book};
    ghost use Rattle.shard_book.specs.inside.Packed.{history_of, tokens_of};
    ghost use Rattle.shard_book.specs.inside.Sound.{IsBook};

    ghost Value = { Book };

    ghost view = { λ b. record {
      table = b.table;
      shard = b.shard;
      shards = b.shards;
      entries = history_of (tokens_of b.accounts) b.history.items;
    } };

    ghost invariant = { λ b. IsBook b.table b.shard b.shards b.accounts b.history.items };
}

impl ShardBook {
    /// A book without entries. It takes no memory. The seed is its service's, of `HashSeed::new`.
    pub fn open(alloc: Global, seed: HashSeed, table: FareTable, shard: u32, shards: u32) -> Self
        requires shard { shard < shards }
        requires shards { shards ≤ 64 }
        ensures book { result ≡ record {
          table = table;
          shard = shard;
          shards = shards;
          entries = [];
        } }
        ensures legal { IsLegal result.table result.entries }
    {
        ShardBook {
            table,
            shard,
            shards,
            accounts: Accounts::new(alloc, seed),
            history: Vec::new(alloc),
            hints: Hints::new(alloc),
        }
    }

    /// Posts one tap: its entry with the account rule's reply is appended. All memory is taken
    /// first: on an allocation failure, or beyond 2^32 accounts, the book stays as it was.
    pub fn post(&mut self, clock: &Clock, tap: &TapView) -> Result<Reply, NoMemory>
        requires here { shard_of_token tap.now.token self.old.shards ≡ self.old.shard }
        requires clock { clock.now ≡ self.old.table.zone }
        ensures ok { IfOk result (λ reply. PostsTap self.old self.new tap.now reply) }
        ensures err { OnErr result (self.new ≡ self.old) }
        ensures legal { IsLegal self.new.table self.new.entries }
    {
        self.post_at(clock, tap, NO_POSITION)
    }

    /// If its token's account is at the known index, no look-up is needed.
    #[inline(always)]
    pub(crate) fn post_at(
        &mut self,
        clock: &Clock,
        tap: &TapView,
        known: u32,
    ) -> Result<Reply, NoMemory>
        requires here { shard_of_token tap.now.token self.old.shards ≡ self.old.shard }
        requires clock { clock.now ≡ self.old.table.zone }
        ensures ok { IfOk result (λ reply. PostsTap self.old self.new tap.now reply) }
        ensures err { OnErr result (self.new ≡ self.old) }
        ensures legal { IsLegal self.new.table self.new.entries }
    {
        self.history.reserve(1)?;
        let validator = tap.validator_number();
        let moment = tap.moment_ms();
        let mode = self.table.mode_of(moment, validator);
        let bytes = tap.token();
        let token = Token::of(bytes);
        let tap_in = TapIn { moment, mode };
        let (position, reply) = self
            .accounts
            .step(&self.table, clock, token, bytes, tap_in, known)?;
        let packed = PackedEntry::of(position, validator, moment, reply);
        self.history.push_reserved(packed);
        Ok(reply)
    }

    /// The book's fare table.
    pub fn table(&self) -> &FareTable
        ensures { result.now ≡ self.now.table }
    {
        &self.table
    }

    /// The book's shard, below the number of shards.
    pub fn shard(&self) -> u32
        ensures shard { result ≡ self.now.shard }
        ensures within { result < self.now.shards }
    {
        self.shard
    }

    /// The number of shards, at most 64.
    pub fn shards(&self) -> u32
        ensures shards { result ≡ self.now.shards }
        ensures few { result ≤ 64 }
    {
        self.shards
    }

    /// How many entries the history has.
    pub fn len(&self) -> u64
        ensures len { result ≡ length self.now.entries }
        ensures legal { IsLegal self.now.table self.now.entries }
        ensures here { AreOfShard self.now.shard self.now.shards self.now.entries }
        ensures fits { TokensFit self.now.entries }
    {
        self.history.len() as u64
    }

    /// The entry at index `i` of the history.
    #[inline(always)]
    pub fn entry(&self, i: u64) -> Entry
        requires { i < length self.now.entries }
        ensures { slice_get self.now.entries i ≡ Some result }
    {
        let packed = self.history[i as usize];
        packed.entry(self.accounts.token_at(packed.position()))
    }

    pub(crate) fn seed(&self) -> HashSeed {
        self.accounts.seed()
    }

    /// `false`, and no counts, if one has grown too large to be stored.
    pub(crate) fn push_counts(&self, list: &mut Vec<TokenCounts>) -> Result<bool, NoMemory>
        ensures sums { IfOk result (λ reported. IsTrue reported
            → AddsSums self.now.entries (map token_counts list.old.items)
            (map token_counts list.new.items)) }
        ensures here { AreOfShard self.now.shard self.now.shards self.now.entries }
    {
        if !self.accounts.is_counting() {
            return Ok(false);
        }
        self.accounts.push_counts(list)?;
        Ok(true)
    }

    pub(crate) fn account_of(&self, token: Token) -> CappedAccount
        ensures { Represents (capped_rules_of self.now.table (bytes_of token)) result
            (taps_of self.now.table token self.now.entries) }
    {
        self.accounts.account_of(token)
    }
}
