//! Cases of books: forty taps of forty tokens.

ghost use Rattle.std.specs.Prelude.{◌≡◌, IfOk};

use crate::sample::{UNTIL, table};
use crate::stop::{Case, Stop, again, ended, promise, twice};
use account_rule::Answer;
use sample_table::{START, SUBWAY, bytes_of, tap_after};
use shard_book::{Entry, HashSeed, Replies, RunEnd, ShardBook, token_sums_of_books};
use std::alloc::Global;
use std::random::RandomSource;
use tap_views::{Batch, TapFields, Token, encode};

/// The only book of its service.
fn book<R: RandomSource>(rt: &R, alloc: Global) -> Result<ShardBook, Stop>
    ensures { IfOk result (λ book. (book.shard ≡ 0) × (book.shards ≡ 1)) }
{
    let seed = HashSeed::new(rt)?;
    let table = table(alloc)?;
    Ok(ShardBook::open(alloc, seed, table, 0, 1))
}

fn forty_taps(alloc: Global) -> Result<Vec<TapFields>, Stop> {
    let mut taps = Vec::new(alloc);
    for last in 0..40u8 {
        taps.push(tap_after(last, SUBWAY, 0))?;
    }
    Ok(taps)
}

fn is_ride(entry: &Entry, last: u8) -> bool {
    *entry
        == Entry {
            token: Token::of(&bytes_of(last)),
            validator: SUBWAY,
            moment: START,
            answer: Answer::Paid,
            cents: 300,
        }
}

fn has_rides(book: &ShardBook, count: u64) -> Case {
    promise(book.len() == count, "another number of entries")?;
    for last in 0..40u8 {
        if u64::from(last) < book.len() {
            promise(is_ride(&book.entry(u64::from(last)), last), "another entry")?;
        }
    }
    Ok(())
}

/// If an allocation fails before that, nothing is posted.
fn post(
    alloc: Global,
    book: &mut ShardBook,
    taps: &[TapFields],
    out: &mut Replies,
) -> Result<RunEnd, Stop> {
    let bytes = encode(alloc, taps)?;
    let (batch, _) = Batch::first(&bytes)?;
    let run = batch.run_of(book.shard(), book.shards());
    let clock = book.table().clock(alloc)?;
    out.reserve(run.len())?;
    Ok(book.post_run(&clock, &run, out))
}

fn left(taps: &[TapFields], end: RunEnd) -> &[TapFields] {
    match end {
        RunEnd::Cut { posted } if (posted as usize) < taps.len() => &taps[posted as usize..],
        RunEnd::Cut { .. } => taps,
        RunEnd::Whole => &taps[taps.len()..],
    }
}

fn are_paid(out: &Replies, count: u64) -> Case {
    promise(out.len() == count, "another number of replies")?;
    for i in 0..out.len() {
        let reply = out.get(i);
        promise(
            reply.answer == Answer::Paid && reply.cents == 300,
            "another reply",
        )?;
    }
    Ok(())
}

fn post_rest(alloc: Global, book: &mut ShardBook, rest: &[TapFields], out: &mut Replies) -> Case {
    if post(alloc, book, rest, out)? != RunEnd::Whole {
        return Err(Stop::Refused);
    }
    are_paid(out, 40)?;
    has_rides(book, 40)
}

/// `post_run`: a cut run posted exactly its first taps, and the others can be posted afterwards.
/// Would catch a book that remembers a refusal, which no contract sees, and takes nothing more.
pub(crate) fn cut_run<R: RandomSource>(rt: &R, alloc: Global) -> Case {
    let taps = forty_taps(alloc)?;
    let mut book = book(rt, alloc)?;
    let mut out = Replies::new(alloc);
    let end = post(alloc, &mut book, &taps, &mut out)?;
    let rest = left(&taps, end);
    let posted = 40u64.saturating_sub(rest.len() as u64);
    are_paid(&out, posted)?;
    has_rides(&book, posted)?;
    let second = post_rest(alloc, &mut book, rest, &mut out);
    match end {
        RunEnd::Whole => second,
        RunEnd::Cut { .. } => again(second),
    }
}

fn post_tap(alloc: Global, book: &mut ShardBook, tap: &TapFields) -> Case {
    let bytes = encode(alloc, std::slice::from_ref(tap))?;
    let (batch, _) = Batch::first(&bytes)?;
    let run = batch.run_of(book.shard(), book.shards());
    let clock = book.table().clock(alloc)?;
    let Some(tap) = run.taps().next() else {
        return Err(Stop::Wrong("a tap is of another shard"));
    };
    let reply = book.post(&clock, &tap)?;
    promise(
        reply.answer == Answer::Paid && reply.cents == 300,
        "another reply",
    )
}

/// Posts the tap to a book of `rides` rides, again if it is refused, and returns whether it was.
fn post_twice(
    alloc: Global,
    book: &mut ShardBook,
    tap: &TapFields,
    rides: u64,
) -> Result<bool, Stop> {
    let first = post_tap(alloc, book, tap);
    if first != Err(Stop::Refused) {
        first?;
        return Ok(false);
    }
    has_rides(book, rides)?;
    promise(
        post_tap(alloc, book, tap) == Ok(()),
        "a tap is refused again",
    )?;
    Ok(true)
}

/// `post`, one tap at a time. Would catch a book whose first growth is forgotten.
pub(crate) fn posts<R: RandomSource>(rt: &R, alloc: Global) -> Case {
    let taps = forty_taps(alloc)?;
    let mut book = book(rt, alloc)?;
    let mut refused = false;
    for (last, tap) in taps.iter().enumerate() {
        if post_twice(alloc, &mut book, tap, last as u64)? {
            refused = true;
        }
    }
    has_rides(&book, 40)?;
    ended(refused)
}

fn full_book<R: RandomSource>(rt: &R, alloc: Global) -> Result<ShardBook, Stop> {
    let mut book = book(rt, alloc)?;
    let mut out = Replies::new(alloc);
    let taps = forty_taps(alloc)?;
    match post(alloc, &mut book, &taps, &mut out)? {
        RunEnd::Whole => Ok(book),
        RunEnd::Cut { .. } => Err(Stop::Refused),
    }
}

fn lists_tokens(alloc: Global, book: &ShardBook) -> Case {
    let tokens = book.tokens(alloc)?;
    promise(tokens.len() == 40, "another number of tokens")?;
    for last in 0..40u8 {
        let wanted = Token::of(&bytes_of(last));
        let listed = tokens.get(usize::from(last));
        promise(
            listed.is_some_and(|token| *token == wanted),
            "another token",
        )?;
    }
    Ok(())
}

/// Also if the book stayed the same.
pub(crate) fn tokens<R: RandomSource>(rt: &R, alloc: Global) -> Case {
    let book = full_book(rt, alloc)?;
    twice!({
        has_rides(&book, 40)?;
        lists_tokens(alloc, &book)
    })
}

fn adds_up(alloc: Global, book: &ShardBook) -> Case {
    let validators = book.by_validator(alloc)?;
    promise(validators.len() == 1, "another number of validators")?;
    for sum in &validators {
        promise(
            sum.validator == SUBWAY && sum.totals == book.totals(),
            "other sums of a validator",
        )?;
    }
    let sums = token_sums_of_books(alloc, std::slice::from_ref(book))?;
    promise(sums.len() == 40, "another number of sums")?;
    for position in 0..sums.len() {
        let sum = sums.get(position);
        promise(
            sum.totals.taps == 1 && sum.totals.cents == 300,
            "other sums of a token",
        )?;
    }
    Ok(())
}

pub(crate) fn sums<R: RandomSource>(rt: &R, alloc: Global) -> Case {
    let book = full_book(rt, alloc)?;
    twice!({
        has_rides(&book, 40)?;
        adds_up(alloc, &book)
    })
}

fn states(alloc: Global, book: &ShardBook) -> Case {
    let statement = book.statement(alloc, &Token::of(&bytes_of(7)))?;
    promise(
        statement.lines.len() == 1 && statement.totals.cents == 300,
        "another statement",
    )?;
    promise(
        statement
            .window
            .is_some_and(|window| window.until == UNTIL && window.cents == 300),
        "another window",
    )
}

pub(crate) fn statement<R: RandomSource>(rt: &R, alloc: Global) -> Case {
    let book = full_book(rt, alloc)?;
    twice!({
        has_rides(&book, 40)?;
        states(alloc, &book)
    })
}
