//! The rule under which passes take turns at a book, and what each step of it shows.
use atomic_table::{Join, Play, Split, TableRule};
use shard_book::{Entry, ShardBook};
use std::collections::LinkedList;
use std::snapshot::Snapshot;

/// What is in the slot: the book, or nothing while a pass has the turn.
pub type Slot = Option<Box<ShardBook>>;

/// What a shared book was opened with.
#[derive(Drop)]
pub struct Opening {
    /// The number of the first visit.
    pub first: u64,
    /// The book as it was then, without entries.
    pub book: Snapshot<ShardBook>,
}

/// A visit that a pass has seen, and whether the pass made it. No value of it is made.
pub struct Mark {
    /// Whether the pass made the visit.
    pub mine: bool,
    /// The entries that the visit appended.
    pub visit: LinkedList<Entry>,
}

/// What a pass knows. No value of it is made.
pub struct PassState {
    /// Whether the pass was not joined into another.
    pub unjoined: bool,
    pub opened: Opening,
    pub claims: u64,
    /// Whether the pass has the turn.
    pub turn: bool,
    /// The visits that the pass has seen, by their numbers.
    pub marks: LinkedList<Mark>,
    /// The marks of a pass that is being joined into this one.
    pub met: LinkedList<Mark>,
}

/// The rule over the turn word, the slot and all passes' views: a state of the turn machine.
pub struct TurnRule;

impl TableRule<Slot, PassState, Opening> for TurnRule {
    ghost use Rattle.std.specs.Prelude.{false, []};
    ghost use Rattle.shared_books.specs.Claims.{all_claims};
    ghost use Rattle.shared_books.specs.Turns.{IsTurn};
    ghost use Rattle.shared_books.specs.PassStates.{pass_state};

    ghost holds = { IsTurn };

    ghost first = { λ k. pass_state k all_claims false [] [] };
}

/// A look at the turn word.
pub struct Looks;

impl Play<Slot, PassState> for Looks {
    ghost use Rattle.shared_books.specs.inside.Steps.{HasSeen};

    ghost then = { λ _ before found after. HasSeen before found after };
}

/// A try to take the turn.
pub struct Takes;

impl Play<Slot, PassState> for Takes {
    ghost use Rattle.shared_books.specs.inside.Steps.{HasTriedTurn};

    ghost then = { HasTriedTurn };
}

/// The turn is given back.
pub struct Gives;

impl Play<Slot, PassState> for Gives {
    ghost use Rattle.std.specs.Prelude.{◌≡◌};
    ghost use Rattle.shared_books.specs.inside.Steps.{given_back};

    ghost then = { λ _ before _ after. after ≡ given_back before };
}

/// A new pass, which has seen as much and half of the claims, and made nothing.
pub struct ClaimSplit;

impl Split<PassState> for ClaimSplit {
    ghost use Rattle.shared_books.specs.inside.Steps.{new_pass_state, left_pass_state};

    ghost left = { left_pass_state };

    ghost right = { new_pass_state };
}

/// One pass has what two had.
pub struct Meets;

impl Join<PassState> for Meets {
    ghost use Rattle.shared_books.specs.inside.Steps.{both_pass_states, spent_pass_state};

    ghost both = { both_pass_states };

    ghost spent = { spent_pass_state };
}

/// The look that ends a join.
pub struct EndsJoin;

impl Play<Slot, PassState> for EndsJoin {
    ghost use Rattle.shared_books.specs.inside.Steps.{HasEndedJoin};

    ghost then = { λ _ before _ after. HasEndedJoin before after };
}
