//! Books by themselves: calls that no program makes, and what no clause says.

use crate::sample::{BUS, SAMPLE, START, SUBWAY, rides, tap, token};
use account_rule::{Answer, Reply};
use fare_table::{FareTable, ReadFareTable};
use shard_book::{Entry, HashSeed, ShardBook, Totals, first_difference, token_sums_of_books};
use std::alloc::Global;
use std::hash::BuildHasher;
use std::random::RandomSource;
use std::test::Fail;
use tap_views::{Batch, TapFields, Token, encode};

/// Taps, paid, transfers, capped, stale, unknown and cents.
fn shown(totals: &Totals) -> [u128; 7] {
    [
        totals.taps,
        totals.paid,
        totals.transfers,
        totals.capped,
        totals.stale,
        totals.unknown,
        totals.cents,
    ]
}

/// A book without entries, the only one.
fn empty_book<R: RandomSource>(alloc: Global, rt: &R) -> Result<ShardBook, Fail> {
    let seed = HashSeed::new(rt)?;
    let table = FareTable::read(alloc, SAMPLE.as_bytes())?;
    Ok(ShardBook::open(alloc, seed, table, 0, 1))
}

/// Posts a tap by itself.
fn post(alloc: Global, book: &mut ShardBook, tap: TapFields) -> Result<Reply, Fail> {
    let bytes = encode(alloc, &[tap])?;
    let (batch, _) = Batch::first(&bytes)?;
    let run = batch.run_of(book.shard(), book.shards());
    let clock = book.table().clock(alloc)?;
    let Some(tap) = run.taps().next() else {
        return Err(Fail::from("the tap is of another shard"));
    };
    Ok(book.post(&clock, &tap)?)
}

fn book_of<R: RandomSource>(alloc: Global, rt: &R, taps: &[TapFields]) -> Result<ShardBook, Fail> {
    let mut book = empty_book(alloc, rt)?;
    for tap in taps {
        post(alloc, &mut book, *tap)?;
    }
    Ok(book)
}

/// A ride and a transfer of one token. The transfer has these cents.
fn two_entries(cents: u32) -> [Entry; 2] {
    let ride = Entry {
        token: token(0xa1),
        validator: SUBWAY,
        moment: START,
        answer: Answer::Paid,
        cents: 300,
    };
    let transfer = Entry {
        token: token(0xa1),
        validator: BUS,
        moment: START + 7_200_000,
        answer: Answer::Transfer,
        cents,
    };
    [ride, transfer]
}

/// From the very list, from one with other cents, and from its prefix.
#[test]
fn differences_from_a_list(rt: HostRuntime) -> Result<(), Fail> {
    let taps = [tap(0xa1, SUBWAY, START), tap(0xa1, BUS, START + 7_200_000)];
    let book = book_of(rt.alloc(), &rt, &taps)?;
    let found = [
        first_difference(&book, &two_entries(0)),
        first_difference(&book, &two_entries(300)),
        first_difference(&book, &two_entries(0)[..1]),
    ];
    assert_eq!(rt; found, [None, Some(1), Some(1)]);
    Ok(())
}

/// The tokens of a book, with what each comes to.
fn by_token(alloc: Global, book: &ShardBook) -> Result<Vec<(Token, [u128; 7])>, Fail> {
    let mut list = Vec::new(alloc);
    let sums = token_sums_of_books(alloc, std::slice::from_ref(book))?;
    for position in 0..sums.len() {
        let sum = sums.get(position);
        list.push((sum.token, shown(&sum.totals)))?;
    }
    Ok(list)
}

/// The validators of a book, with what each comes to.
fn by_validator(alloc: Global, book: &ShardBook) -> Result<Vec<(u32, [u128; 7])>, Fail> {
    let mut list = Vec::new(alloc);
    for sum in &book.by_validator(alloc)? {
        list.push((sum.validator, shown(&sum.totals)))?;
    }
    Ok(list)
}

#[test]
fn sums_of_one_book(rt: HostRuntime) -> Result<(), Fail> {
    let alloc = rt.alloc();
    let taps = [
        tap(0xb2, BUS, START),
        tap(0xa1, SUBWAY, START),
        tap(0xb2, BUS, START),
    ];
    let book = book_of(alloc, &rt, &taps)?;
    let (ride, two) = ([1, 1, 0, 0, 0, 0, 300], [2, 1, 0, 0, 1, 0, 300]);
    let found = by_validator(alloc, &book)?;
    assert!(rt; found.as_slice() == &[(SUBWAY, ride), (BUS, two)][..]);
    let found = by_token(alloc, &book)?;
    assert!(rt; found.as_slice() == &[(token(0xa1), ride), (token(0xb2), two)][..]);
    let found = book.tokens(alloc)?;
    assert!(rt; found.as_slice() == &[token(0xa1), token(0xb2)][..]);
    assert_eq!(rt; shown(&book.totals()), [3, 2, 0, 0, 1, 0, 600]);
    Ok(())
}

/// Two books that both have taps of one token.
fn sharing_books<R: RandomSource>(alloc: Global, rt: &R) -> Result<[ShardBook; 2], Fail> {
    let one = book_of(alloc, rt, &rides())?;
    let other = book_of(alloc, rt, &[tap(0xa1, 9, START)])?;
    Ok([one, other])
}

/// A token that is in two books is summed once.
#[test]
fn sums_of_a_shared_token(rt: HostRuntime) -> Result<(), Fail> {
    let alloc = rt.alloc();
    let books = sharing_books(alloc, &rt)?;
    let sums = token_sums_of_books(alloc, &books)?;
    assert_eq!(rt; sums.len(), 1);
    let sum = sums.get(0);
    let wanted = (token(0xa1), [5, 2, 2, 0, 0, 1, 600]);
    assert_eq!(rt; (sum.token, shown(&sum.totals)), wanted);
    Ok(())
}

/// No contract speaks of the seed: two of them hash a token apart.
#[test]
fn seeds_differ(rt: HostRuntime) -> Result<(), Fail> {
    let one = HashSeed::new(&rt)?.hash_one(token(1));
    let other = HashSeed::new(&rt)?.hash_one(token(1));
    assert!(rt; one != other);
    Ok(())
}
