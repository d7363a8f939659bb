//! The classes of single riders by their tokens.
ghost use Rattle.std.specs.{Map.keys_of, Prelude.◌≡◌, Prelude.All, Prelude.IfOk, Prelude.length};
ghost use Rattle.tap_views.specs.Token.{Fits};
ghost use Rattle.tariffs.specs.Riders.{by_bytes};

use crate::riders::marks::RiderFilter;
use std::alloc::Global;
use std::collections::BTreeMap;
use std::marker::Model;
use tap_views::{NoMemory, Token};

mod marks;

/// The indices of riders' classes, by the bytes of their tokens.
#[derive(Drop)]
pub struct Riders {
    classes: BTreeMap<Token, u32>,
    /// A filter: most tokens are no rider's, and it says so without a search.
    marks: RiderFilter,
}

impl Model for Riders {
    ghost use Rattle.std.specs.Prelude.{ℕ, List};
    ghost use Rattle.tariffs.specs.inside.RiderFilter.{MayContainAll};
    ghost use Rattle.tariffs.specs.Riders.{by_bytes};

    ghost Value = { List (List ℕ × ℕ) };

    ghost view = { λ r. by_bytes r.classes.entries };

    ghost invariant = { λ r. MayContainAll r.classes.entries r.marks };
}

impl Riders {
    ghost use Rattle.std.specs.Prelude.{◌≡◌, All, IfOk, length};
    ghost use Rattle.std.specs.BTreeMap.{is_at};
    ghost use Rattle.std.specs.Cmp.Lexicographic.{slice_cmp};
    ghost use Rattle.std.specs.Map.{keys_of, lookup};
    ghost use Rattle.std.specs.Ordering.{nat_cmp};
    ghost use Rattle.tap_views.specs.Token.{Fits};
    ghost use Rattle.tariffs.specs.Riders.{by_bytes};

    /// The riders of a map by their tokens, or `NoMemory`.
    pub fn new(alloc: Global, classes: BTreeMap<Token, u32>) -> Result<Riders, NoMemory>
        requires { All Fits (keys_of classes.entries) }
        ensures { IfOk result (λ r. r ≡ by_bytes classes.entries) }
    {
        let marks = RiderFilter::new(alloc, &classes)?;
        Ok(Riders { classes, marks })
    }

    pub(crate) fn all(&self) -> &BTreeMap<Token, u32>
        ensures { by_bytes result.now.entries ≡ self.now }
    {
        &self.classes
    }

    pub(crate) fn class_of(&self, token: &[u8]) -> Option<u32>
        requires { length token.now ≡ 16 }
        ensures { result ≡ lookup (is_at (slice_cmp nat_cmp token.now)) self.now }
    {
        let token = Token::of(token);
        if !self.marks.has(token) {
            return None;
        }
        match self.classes.get(&token) {
            Some(class) => Some(*class),
            None => None,
        }
    }
}
