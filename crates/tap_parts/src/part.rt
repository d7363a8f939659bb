//! A rule that gives the part of a token.

ghost use Rattle.std.specs.Prelude.{◌≡◌, ℕ, List, length};

/// A rule by which each token falls to a part.
pub trait PartRule {
    // The part of a token of 16 bytes, from 0.
    ghost part_of: { Self → List ℕ → ℕ };

    /// The part of a token, from 0.
    fn part(&self, token: &[u8]) -> u32
        requires { length token.now ≡ 16 }
        ensures { result ≡ part_of self.now token.now };
}
