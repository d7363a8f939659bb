//! What a command line asks for, and what a run has to do it.
ghost use Rattle.std.specs.Prelude.{◌≤◌};

use program_manners::TableWords;
use std::alloc::Global;
use tap_views::Token;

/// What the words ask for.
#[derive(Drop)]
pub(crate) struct Options<'a> {
    /// The words of the fare table and of those that follow it, if one is named.
    pub(crate) table: Option<TableWords<'a>>,
    /// Whether the taps are listed, also by a table.
    pub(crate) list: bool,
    /// How many workers post the uploads, 1 to 16.
    pub(crate) workers: u32,
    /// Over how many shards the accounts are spread, 1 to 64.
    pub(crate) shards: u32,
    /// The token whose statement is wanted, as it is written.
    pub(crate) token: Option<&'a str>,
    /// Whether the taps are settled: put into their one order before they are posted.
    pub(crate) settle: bool,
    /// Whether a live run is meant: one whose taps are charged as the uploads are drawn.
    pub(crate) live: bool,
    /// Whether the files are in canonical order, and are read in pieces and merged.
    pub(crate) sorted: bool,
    /// Whether the ledger is wanted: of all tokens, or of the one that is asked for.
    pub(crate) ledger: bool,
    /// Whether the statement is explained.
    pub(crate) explain: bool,
    /// Whether the explained statement is JSON.
    pub(crate) json: bool,
    /// Whether the ledger's lines have their class, upload and place after them.
    pub(crate) traced: bool,
    /// The range of tokens whose taps alone are charged, as it is written.
    pub(crate) tokens: Option<&'a str>,
    /// The uploads, in order; none represents standard input.
    pub(crate) files: Vec<&'a str>,
    ghost some_worker: { 1 ≤ workers },
    ghost few_workers: { workers ≤ 16 },
    ghost some_shard: { 1 ≤ shards },
    ghost few_shards: { shards ≤ 64 },
}

/// What is asked for, and what it is done with.
#[derive(Drop)]
pub(crate) struct Job<'r, 'a, R, D> {
    pub(crate) rt: &'r R,
    pub(crate) alloc: Global,
    pub(crate) disk: &'r D,
    pub(crate) options: Options<'a>,
    /// The token whose statement or ledger is wanted.
    pub(crate) token: Option<Token>,
}
