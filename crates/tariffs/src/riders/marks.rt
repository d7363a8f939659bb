//! A one-hash Bloom filter of the tokens that `riders` names, so that few others are searched for.

ghost use Rattle.std.specs.Prelude.{◌≡◌, ◌<◌, ◌≤◌, ◌*◌, true, All, IfOk, length};
ghost use Rattle.std.specs.Map.{keys_of};
ghost use Rattle.tariffs.specs.RiderFilter.{may_contain, filter_bit};

use std::alloc::Global;
use std::collections::BTreeMap;
use std::marker::Model;
use tap_views::{NoMemory, Token};

/// The least number of marks for each token: most other tokens then have none.
const FILTER_BITS_FOR_EACH: usize = 8;

/// A one-hash Bloom filter of tokens, by their last bits. A token without a mark is none of them.
#[derive(Drop)]
pub(crate) struct RiderFilter {
    /// A power of two of them, so that an index needs no division. None if there is no token.
    marks: Vec<bool>,
}

impl Model for RiderFilter {
    ghost use Rattle.std.specs.Prelude.{Bool, List};

    ghost Value = { List Bool };

    ghost view = { λ m. m.marks.items };
}

impl RiderFilter {
    pub(crate) fn new(alloc: Global, riders: &BTreeMap<Token, u32>) -> Result<RiderFilter, NoMemory>
        ensures marked { IfOk result
            (λ marks. All (λ token. may_contain marks token ≡ true) (keys_of riders.now.entries)) }
        ensures few { IfOk result (λ marks. length marks ≤ 16 * length riders.now.entries) }
    {
        let mut marks = vec![in alloc; false; filter_bits_for(riders.len())?]?;
        for token in riders.keys() {
            let position = filter_bit(*token, marks.len());
            marks[position] = true;
        }
        Ok(RiderFilter { marks })
    }

    pub(crate) fn has(&self, token: Token) -> bool
        ensures { result ≡ may_contain self.now token }
    {
        !self.marks.is_empty() && self.marks[filter_bit(token, self.marks.len())]
    }
}

/// The last bits spread well, since most tokens are random.
fn filter_bit(token: Token, marks: usize) -> usize
    requires { 0 < marks }
    ensures position { result ≡ filter_bit token marks }
    ensures inside { result < marks }
{
    token.low() as usize & (marks - 1)
}

/// A number that `usize` does not hold is more than memory holds: it is returned as `NoMemory`.
fn filter_bits_for(tokens: usize) -> Result<usize, NoMemory>
    ensures some { IfOk result (λ marks. 0 < tokens → 0 < marks) }
    ensures few { IfOk result (λ marks. marks ≤ 16 * tokens) }
{
    if tokens == 0 {
        return Ok(0);
    }
    tokens
        .saturating_mul(FILTER_BITS_FOR_EACH)
        .checked_next_power_of_two()
        .ok_or(NoMemory)
}
