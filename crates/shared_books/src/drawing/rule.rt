//! The rule under which numbers are drawn, and what each step of it shows.
use atomic_table::{Join, Play, Split, TableRule};
use std::collections::LinkedList;

/// What a drawer knows. No value of it is made.
pub struct DrawerState {
    /// Whether the drawer was not joined into another.
    pub unjoined: bool,
    pub claims: u64,
    /// How many numbers there are.
    pub numbers: u64,
    /// Up to which number the drawer has seen the numbers drawn.
    pub seen: u64,
    pub drawn: LinkedList<u64>,
}

/// The rule over the number of drawn numbers and all drawers' states.
pub struct DrawRule;

impl TableRule<(), DrawerState, u32> for DrawRule {
    ghost use Rattle.shared_books.specs.Claims.{all_claims};
    ghost use Rattle.shared_books.specs.inside.Drawing.{IsDrawn};
    ghost use Rattle.shared_books.specs.inside.DrawerStates.{empty_drawer_state};

    ghost holds = { IsDrawn };

    ghost first = { λ numbers. empty_drawer_state all_claims numbers 0 };
}

/// A try to draw.
pub struct Draws;

impl Play<(), DrawerState> for Draws {
    ghost use Rattle.shared_books.specs.inside.DrawerStates.{HasTried};

    ghost then = { HasTried };
}

/// The load that ends a join.
pub struct Looks;

impl Play<(), DrawerState> for Looks {
    ghost use Rattle.shared_books.specs.inside.DrawerStates.{HasLooked};

    ghost then = { HasLooked };
}

/// A new drawer has seen as much and half of the claims, and drew nothing.
pub struct ClaimSplit;

impl Split<DrawerState> for ClaimSplit {
    ghost use Rattle.shared_books.specs.inside.DrawerStates.{left_drawer_state, new_drawer_state};

    ghost left = { left_drawer_state };

    ghost right = { new_drawer_state };
}

/// One drawer has what both drew.
pub struct Meets;

impl Join<DrawerState> for Meets {
    ghost use Rattle.shared_books.specs.inside.DrawerStates.{both_drawer_states};
    ghost use Rattle.shared_books.specs.inside.DrawerStates.{spent_drawer_state};

    ghost both = { both_drawer_states };

    ghost spent = { spent_drawer_state };
}
