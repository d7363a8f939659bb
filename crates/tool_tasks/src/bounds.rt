//! `bounds`: the tokens at which to divide a run over sorted uploads into parts.

use crate::fault::Fault;
use crate::informs::ended_informing;
use crate::placed::{PlacedFiles, open_placed};
use fare_texts::Digits;
use sorted_taps::{SortedFault, bounds_of_parts};
use std::alloc::Global;
use tool_words::BoundsWords;
use world::World;

/// Writes the tokens.
fn list_bounds<'a, D: PlacedFiles, W: World>(
    alloc: Global,
    words: &BoundsWords<'a>,
    disk: &D,
    world: &mut W,
) -> Result<bool, Fault<'a>> {
    let files = open_placed(alloc, disk, &words.uploads)?;
    let bounds = match bounds_of_parts(alloc, &files, words.parts - 1) {
        Ok(bounds) => bounds,
        Err(SortedFault::NoMemory) => return Err(Fault::NoMemory),
        Err(_) => return Err(Fault::SomeUnread),
    };
    let mut text = String::new(alloc);
    for bound in &bounds {
        let token = Digits(*bound);
        write!(text, "{token}\n")?;
    }
    world.write(text.as_bytes())?;
    world.flush()?;
    Ok(true)
}

/// Writes the tokens, one a line, for about as many taps in each part. The uploads are in canonical
/// order, and are read at any offset. The status is 0 if the tokens are written, 1 after a fault.
pub fn bounds_over<D: PlacedFiles, W: World>(
    alloc: Global,
    words: &BoundsWords<'_>,
    disk: &D,
    world: &mut W,
) -> u8 {
    ended_informing(list_bounds(alloc, words, disk, world), world)
}
