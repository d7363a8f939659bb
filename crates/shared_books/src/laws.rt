//! The rule under which passes take turns, and what it says between any two steps.
ghost use Rattle.shared_books.specs.Events.{StepsAreEvents, TakesAreEvents, GivesAreEvents};

pub use crate::turns::rule::{Mark, Opening, PassState, TurnRule};

/// Steps are events: turn word, slot and all passes' views show a state that some schedule of takes
/// and gives reaches. At an even turn word the book of all visits is in the slot, at an odd one
/// exactly one pass has the turn. The machine is this project's choice.
pub fn steps_are_events()
    ensures { StepsAreEvents }
{}

/// A take is the machine's event of its seat, and a give that of its seat and visit.
pub fn takes_and_gives_are_events()
    ensures takes { TakesAreEvents }
    ensures gives { GivesAreEvents }
{}
