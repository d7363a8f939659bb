//! Theorems about settled bills: what a bill depends on.

ghost use Rattle.std.specs.Prelude.{◌≡◌, ◌≤◌, ◌++◌, ℕ, List, map};
ghost use Rattle.tariffs.specs.Fares.{Fares};
ghost use Rattle.tap_views.specs.declared.token.Token.{Token};
ghost use Rattle.histories.specs.declared.entry.Entry.{Entry};
ghost use Rattle.settlement.specs.Settled.{IsSettledHistory};
ghost use Rattle.laws.specs.Bills.{BillAlike, ChargedAlike, HaveSameTerms, bill_before};
ghost use Rattle.laws.specs.Bills.{GivesOneAtMost, lines_before, rides_of};
ghost use Rattle.laws.specs.TapSets.{AreSentAgain, HaveOneMoreTap, HaveSameSetOfTaps};
ghost use Rattle.laws.specs.TapSets.{HaveSameTapsBefore, HaveTapsAlike, HaveTapsAlikeBefore};

use fare_service::laws::plain_history;
use tap_views::laws::unique_parse_each;

/// A settled bill is a function of the set of valid taps: a repeated tap is charged once. Only the
/// numbers of all, of stale and of unknown taps depend on more.
pub fn set_of_taps_is_billed(uploads: &[Vec<u8>], others: &[Vec<u8>])
    ensures { (fares : Fares) (history again : List Entry)
        → HaveSameSetOfTaps (map (λ u. u.items) uploads.now) (map (λ u. u.items) others.now)
        → IsSettledHistory fares (map (λ u. u.items) uploads.now) history
        → IsSettledHistory fares (map (λ u. u.items) others.now) again
        → BillAlike fares history again }
{
    unique_parse_each(uploads);
    unique_parse_each(others);
}

/// Taps that are sent again, in any uploads, change no ride, no transfer and no charge.
pub fn repeats_are_free(uploads: &[Vec<u8>], more: &[Vec<u8>])
    ensures { (fares : Fares) (history again : List Entry)
        → AreSentAgain (map (λ u. u.items) uploads.now) (map (λ u. u.items) more.now)
        → IsSettledHistory fares (map (λ u. u.items) uploads.now) history
        → IsSettledHistory fares (map (λ u. u.items) uploads.now ++ map (λ u. u.items) more.now)
        again → BillAlike fares history again }
{
    unique_parse_each(uploads);
    unique_parse_each(more);
}

/// A late tap changes no ride and no transfer of its token before it, and none of another token.
pub fn late_taps_change_nothing_before(uploads: &[Vec<u8>], others: &[Vec<u8>])
    ensures { (fares : Fares) (token : Token) (moment : ℕ) (history again : List Entry)
        → HaveSameTapsBefore token moment (map (λ u. u.items) uploads.now)
        (map (λ u. u.items) others.now)
        → IsSettledHistory fares (map (λ u. u.items) uploads.now) history
        → IsSettledHistory fares (map (λ u. u.items) others.now) again
        → bill_before token moment history ≡ bill_before token moment again }
{
    unique_parse_each(uploads);
    unique_parse_each(others);
    plain_history(uploads);
    plain_history(others);
}

/// What is posted from a moment on changes no line before it: if the valid taps of all tokens
/// before it are the same, so are all lines before it, with answers and cents, in the same order.
pub fn later_taps_change_no_line_before(uploads: &[Vec<u8>], others: &[Vec<u8>])
    ensures { (fares : Fares) (moment : ℕ) (history again : List Entry)
        → HaveTapsAlikeBefore moment (map (λ u. u.items) uploads.now)
        (map (λ u. u.items) others.now)
        → IsSettledHistory fares (map (λ u. u.items) uploads.now) history
        → IsSettledHistory fares (map (λ u. u.items) others.now) again
        → lines_before moment history ≡ lines_before moment again }
{
    unique_parse_each(uploads);
    unique_parse_each(others);
    plain_history(uploads);
    plain_history(others);
}

/// Two tokens with the same terms, and taps at the same moments and validators, each in its own
/// uploads, have the same lines and windows but for the token.
pub fn tokens_are_charged_by_their_taps(uploads: &[Vec<u8>], others: &[Vec<u8>])
    ensures { (fares : Fares) (token other : Token) (history again : List Entry)
        → HaveSameTerms fares token other
        → HaveTapsAlike token other (map (λ u. u.items) uploads.now)
        (map (λ u. u.items) others.now)
        → IsSettledHistory fares (map (λ u. u.items) uploads.now) history
        → IsSettledHistory fares (map (λ u. u.items) others.now) again
        → ChargedAlike fares token other history again }
{
    unique_parse_each(uploads);
    unique_parse_each(others);
    plain_history(uploads);
    plain_history(others);
}

/// If a ride gives one transfer at most, one more tap at a moment without a known tap never lowers
/// the token's number of rides. It may lower what it pays, since it may open a window earlier.
pub fn one_more_tap_makes_no_fewer_rides(uploads: &[Vec<u8>], others: &[Vec<u8>])
    ensures { (fares : Fares) (token : Token) (history again : List Entry)
        → GivesOneAtMost fares token
        → HaveOneMoreTap fares token (map (λ u. u.items) uploads.now)
        (map (λ u. u.items) others.now)
        → IsSettledHistory fares (map (λ u. u.items) uploads.now) history
        → IsSettledHistory fares (map (λ u. u.items) others.now) again
        → rides_of token history ≤ rides_of token again }
{
    unique_parse_each(uploads);
    unique_parse_each(others);
    plain_history(others);
}
