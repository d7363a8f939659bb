//! The seed of the accounts' hash: random, since strangers could fill a bucket of a known one.

ghost use Rattle.std.specs.Prelude.{◌≡◌};
ghost use Rattle.histories.specs.Folding.{leading_number, folded_multiply};

use std::hash::{BuildHasher, Hasher, RandomState};
use std::random::RandomSource;
use tap_views::NoMemory;

/// The seed under which any number of books hash tokens: 128 random bits. A hash is a folded
/// product for each eight bytes. No proof says that a stranger cannot find collisions. One costs
/// time and changes no answer.
#[derive(Clone, Copy)]
pub struct HashSeed {
    state: u64,
    multiplier: u64,
}

impl HashSeed {
    /// A seed from the system's randomness. One that the system refuses is `NoMemory`.
    pub fn new<R: RandomSource>(rt: &R) -> Result<Self, NoMemory> {
        match RandomState::new(rt) {
            Ok(random) => {
                Ok(HashSeed {
                    state: random.hash_one(1u64),
                    multiplier: random.hash_one(2u64),
                })
            }
            Err(_) => Err(NoMemory),
        }
    }
}

/// The hasher of a book's accounts: a folded product for each eight bytes.
#[derive(Clone, Copy)]
pub struct FoldedProduct {
    state: u64,
    multiplier: u64,
}

/// The lowest byte first.
#[tactic(auto, unfolding(crate::specs::Folding::leading_number))]
fn leading_number(bytes: &[u8]) -> u64
    ensures { result ≡ leading_number bytes.now }
{
    if bytes.len() >= 8 {
        u64::from_le_bytes([
            bytes[0], bytes[1], bytes[2], bytes[3], bytes[4], bytes[5], bytes[6], bytes[7],
        ])
    } else if bytes.len() >= 4 {
        u64::from(u32::from_le_bytes([bytes[0], bytes[1], bytes[2], bytes[3]]))
    } else if bytes.len() > 0 {
        u64::from(bytes[0])
    } else {
        0
    }
}

#[tactic(auto, unfolding(crate::specs::Folding::folded_multiply))]
fn folded_multiply(a: u64, b: u64) -> u64
    ensures { result ≡ folded_multiply a b }
{
    let product = u128::from(a) * u128::from(b);
    (product & 0xffff_ffff_ffff_ffff) as u64 ^ (product >> 64) as u64
}

impl Hasher for FoldedProduct {
    ghost use Rattle.histories.specs.Folding.{state_after_write, hasher_state};

    ghost write = { state_after_write };

    ghost finish = { hasher_state };

    #[tactic(auto, unfolding(crate::specs::Folding::state_after_write))]
    fn write(&mut self, bytes: &[u8]) {
        self.state = folded_multiply(self.state ^ leading_number(bytes), self.multiplier);
    }

    fn finish(&self) -> u64 {
        self.state
    }
}

impl BuildHasher for HashSeed {
    ghost use Rattle.histories.specs.Folding.{first_of};

    type Hasher = FoldedProduct;

    ghost build_hasher = { first_of };

    #[tactic(auto, unfolding(crate::specs::Folding::first_of))]
    fn build_hasher(&self) -> FoldedProduct {
        FoldedProduct {
            state: self.state,
            multiplier: self.multiplier,
        }
    }
}
