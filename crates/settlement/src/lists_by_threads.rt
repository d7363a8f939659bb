//! The lists of the parts, made by several threads.

ghost use Rattle.std.specs.{List.AllZip, Prelude.◌≡◌, Prelude.◌++◌, Prelude.IfOk, Prelude.map};
ghost use Rattle.tap_parts.specs.Canonical.{IsCanonical};
ghost use denote.Param.Send.{IsSync};

use crate::part_lists::lists_of;
use crate::pieces::Pieces;
use std::alloc::{AllocError, Global};
use std::marker::Sync;
use std::thread;
use std::thread::Threads;
use tap_views::TapFields;

fn halves(parts: Vec<Pieces>) -> Result<(Vec<Pieces>, Vec<Pieces>), AllocError>
    ensures { IfOk result (λ halves. parts.items ≡ halves.0.items ++ halves.1.items) }
{
    let mut front = parts;
    let middle = front.len() / 2;
    let back = front.split_off(middle)?;
    Ok((front, back))
}

/// The parts are halved `halvings` times, and a thread of its own arranges each piece. If one
/// cannot be started, both halves are arranged one after the other.
#[cycle(lists)]
pub(crate) fn lists_by_threads<R: Threads + Sync>(
    rt: &R,
    alloc: Global,
    parts: Vec<Pieces>,
    halvings: u32,
) -> Result<Vec<Vec<TapFields>>, AllocError>
    ensures { IfOk result (λ lists. AllZip IsCanonical parts.items
        (map (λ list. list.items) lists.items)) }
{
    if halvings == 0 {
        return lists_of(alloc, parts);
    }
    let fewer = halvings - 1;
    let (front, back) = halves(parts)?;
    let first = move || -> Result<Vec<Vec<TapFields>>, AllocError>
        requires { IsSync R.row }
        ensures { IfOk result (λ lists. AllZip IsCanonical front.items
            (map (λ list. list.items) lists.items)) }
    { lists_by_threads(rt, alloc, front, fewer) };
    let second = move || -> Result<Vec<Vec<TapFields>>, AllocError>
        requires { IsSync R.row }
        ensures { IfOk result (λ lists. AllZip IsCanonical back.items
            (map (λ list. list.items) lists.items)) }
    { lists_by_threads(rt, alloc, back, fewer) };
    let (lists, more) = thread::join(rt, first, second);
    let mut lists = lists?;
    let mut more = more?;
    lists.append(&mut more)?;
    Ok(lists)
}
