//! How passes to a shared book are split and joined.

use super::rule::{ClaimSplit, EndsJoin, Meets};
use super::{Pass, SharedBook};
use tap_views::NoMemory;

impl SharedBook {
    ghost use Rattle.std.specs.Prelude.{◌≡◌, IsOkAnd};
    ghost use Rattle.shared_books.specs.Passes.{fresh_pass, left_pass, IsJoined};

    /// A new pass, which has seen as much, made no visit, and gets half of the claims. A single
    /// claim is lost.
    pub fn split(&self, pass: &mut Pass) -> Result<Pass, NoMemory>
        requires belongs { pass.old.book ≡ self.now }
        ensures new { IsOkAnd result (λ new. new ≡ fresh_pass pass.old) }
        ensures old { pass.new ≡ left_pass pass.old }
    {
        let seat = self.table.shared.split_seat::<ClaimSplit>(&mut pass.seat);
        let (held, next) = (0, pass.next);
        Ok(Pass { seat, held, next })
    }

    /// The pass takes over what another one has seen and made, and its claims.
    pub fn join(&self, pass: &mut Pass, other: Pass)
        requires belongs { pass.old.book ≡ self.now }
        requires other { other.book ≡ self.now }
        ensures { IsJoined pass.old other pass.new }
    {
        let Pass { seat, held, .. } = pass;
        let Pass {
            seat: other_seat,
            held: more,
            ..
        } = other;
        self.table.shared.join_seat::<Meets>(seat, other_seat);
        // proof: the look ends the join, after which the pass is like any other
        let _ = self.table.shared.load::<EndsJoin>(seat, 0);
        *held += more;
    }
}

impl Pass {
    ghost use Rattle.std.specs.Prelude.{◌≡◌, length};
    ghost use Rattle.shared_books.specs.Passes.{made_by};

    /// How many visits the pass made.
    pub fn held(&self) -> u64
        ensures { result ≡ length (made_by self.now) }
    {
        self.held
    }
}
