//! The liveness of each tap of a listing, from the taps before it.
ghost use Rattle.fare_program.specs.Listing.{AddsUp, HasLast, IsListingOf, ListedTap, counted};
ghost use Rattle.fare_program.specs.Listing.{counts_of, is_after, last_of, liveness_of, word_text};
ghost use Rattle.std.specs.Prelude.{◌≡◌, ◌+◌, ◌^◌, ◌<◌, ◌≤◌, ◌∷◌, [], List, Some, IfOk, OnErr};

use std::alloc::Global;
use std::collections::BTreeMap;
use std::fmt;
use std::marker::Model;
use tap_views::{NoMemory, TapView};

/// What a listing says of a tap.
#[derive(Clone, Copy, Debug, PartialEq, Eq)]
pub enum Word {
    /// The validator is known, and the tap is later than every known tap of its token before it.
    Live,
    /// The validator is known, and an earlier known tap of the token has this moment or a later
    /// one.
    Stale,
    /// The validator is not known. The tap has no effect on later ones.
    Unknown,
}

impl fmt::Display for Word {
    ghost output = { λ liveness. Some (word_text liveness) };

    fn fmt<W: fmt::Write>(&self, f: &mut fmt::Formatter<W>) -> fmt::Result {
        f.write_str(match self {
            Word::Live => "live",
            Word::Stale => "stale",
            Word::Unknown => "unknown",
        })
    }
}

/// How many taps were listed, and how many with each liveness.
#[derive(Clone, Copy, Debug, PartialEq, Eq)]
pub struct ListCounts {
    /// All taps; the other three add up to it.
    pub taps: u128,
    pub live: u128,
    pub stale: u128,
    pub unknown: u128,
}

impl ListCounts {
    fn count(&mut self, liveness: Word)
        requires sums { AddsUp self.old }
        requires room { self.old.taps + 1 < 2 ^ 128 }
        ensures { self.new ≡ counted self.old liveness }
    {
        self.taps += 1;
        match liveness {
            Word::Live => self.live += 1,
            Word::Stale => self.stale += 1,
            Word::Unknown => self.unknown += 1,
        }
    }
}

fn is_later(last: &BTreeMap<[u8; 16], u64>, token: &[u8; 16], moment: u64) -> bool
    ensures { result ≡ is_after (last_of last.now.entries token.now) moment }
{
    match last.get(token) {
        Some(latest) => *latest < moment,
        None => true,
    }
}

/// A live tap's moment becomes its token's last one.
fn liveness_next(
    last: &mut BTreeMap<[u8; 16], u64>,
    tap: &TapView,
    known: bool,
) -> Result<Word, NoMemory>
    ensures listed { IfOk result (λ liveness. (taps : List ListedTap)
        → HasLast last.old.entries taps → (liveness ≡ liveness_of taps tap.now known)
        × HasLast last.new.entries (record { tap = tap.now; known = known } ∷ taps)) }
    ensures unchanged { OnErr result (last.new.entries ≡ last.old.entries) }
{
    if !known {
        return Ok(Word::Unknown);
    }
    let mut token = [0u8; 16];
    token.copy_from_slice(tap.token());
    let moment = tap.moment_ms();
    if !is_later(last, &token, moment) {
        return Ok(Word::Stale);
    }
    last.insert(token, moment)?;
    Ok(Word::Live)
}

/// A listing of taps: it says whether each is live, stale or unknown, from those before it.
#[derive(Drop)]
pub struct Listing {
    /// The moment of the last live tap of each token.
    last: BTreeMap<[u8; 16], u64>,
    counts: ListCounts,
}

impl Model for Listing {
    ghost use Rattle.fare_program.specs.Listing.{AddsUp, KeptListing};

    ghost Value = { KeptListing };

    ghost view = { λ l. record { last = l.last.entries; counts = l.counts } };

    ghost invariant = { λ l. AddsUp l.counts };
}

impl Listing {
    /// A listing of no taps.
    pub fn new(alloc: Global) -> Listing
        ensures { IsListingOf result [] }
    {
        let counts = ListCounts {
            taps: 0,
            live: 0,
            stale: 0,
            unknown: 0,
        };
        Listing {
            last: BTreeMap::new(alloc),
            counts,
        }
    }

    /// Lists a tap, `known` if its validator is, and returns its liveness. If an allocation fails,
    /// or the taps are too many for 128 bits, the listing is unchanged.
    pub fn add(&mut self, tap: &TapView, known: bool) -> Result<Word, NoMemory>
        ensures listed { IfOk result (λ liveness. (taps : List ListedTap) → IsListingOf self.old taps
            → (liveness ≡ liveness_of taps tap.now known)
            × IsListingOf self.new (record { tap = tap.now; known = known } ∷ taps)) }
        ensures unchanged { OnErr result (self.new ≡ self.old) }
    {
        if self.counts.taps.checked_add(1).is_none() {
            return Err(NoMemory);
        }
        let liveness = liveness_next(&mut self.last, tap, known)?;
        self.counts.count(liveness);
        Ok(liveness)
    }

    /// How many taps were listed, and how many with each liveness.
    pub fn counts(&self) -> ListCounts
        ensures { (taps : List ListedTap) → IsListingOf self.now taps → result ≡ counts_of taps }
    {
        self.counts
    }
}
