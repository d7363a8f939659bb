//! The cases by their names.

use crate::books::{cut_run, posts, statement, sums, tokens};
use crate::service::{opening, prints_report, prints_statement, run};
use crate::settled::{bill, bill_of_sorted, ledger_of_sorted, merge, sort};
use crate::stop::{Case, Stop};
use crate::tables::{clock, clone, encodes, read};
use std::alloc::Global;
use std::marker::Sync;
use std::random::RandomSource;
use std::sync::Wait;
use std::thread::Threads;

/// The cases but those of settled runs, in the order in which they are made.
pub(crate) const CASES: [&str; 13] = [
    "encode",
    "read",
    "try_clone",
    "clock",
    "post",
    "post_run",
    "tokens",
    "sums",
    "statement",
    "open",
    "run",
    "write_report",
    "write_statement",
];

/// The cases of settled runs, which are made after the others.
pub(crate) const SETTLED_CASES: [&str; 5] = [
    "settled_bill",
    "sort_uploads",
    "merge_sorted",
    "sorted_bill",
    "write_sorted_ledger",
];

/// Makes the case of this name.
pub(crate) fn made<R: Threads + Wait + RandomSource + Sync + Print>(
    rt: &R,
    alloc: Global,
    name: &str,
) -> Case {
    match name {
        "encode" => encodes(alloc),
        "read" => read(alloc),
        "try_clone" => clone(alloc),
        "clock" => clock(alloc),
        "post" => posts(rt, alloc),
        "post_run" => cut_run(rt, alloc),
        "tokens" => tokens(rt, alloc),
        "sums" => sums(rt, alloc),
        "statement" => statement(rt, alloc),
        "open" => opening(rt, alloc),
        "run" => run(rt, alloc),
        "write_report" => prints_report(rt, alloc),
        "write_statement" => prints_statement(rt, alloc),
        "settled_bill" => bill(rt, alloc),
        "sort_uploads" => sort(rt, alloc),
        "merge_sorted" => merge(alloc),
        "sorted_bill" => bill_of_sorted(rt, alloc),
        "write_sorted_ledger" => ledger_of_sorted(rt, alloc),
        _ => Err(Stop::Wrong("is no case")),
    }
}
