//! The taps of one token, posted one after another by its account alone.

ghost use Rattle.fare_caps.specs.{CapMeanings.capped_rules_of, CappedReplies.capped_window};
ghost use Rattle.histories.specs.Entry.{own, taps_of};
ghost use Rattle.histories.specs.{Plain.answered, declared.entry.Entry.Entry};
ghost use Rattle.settlement.specs.{Modes.IsModeAt, Posted.token_of_tap, Posted.unposted};
ghost use Rattle.settlement.specs.Replays.{HasPosted};
ghost use Rattle.std.specs.Prelude.{◌≡◌, ◌<◌, List, ◌∷◌, ◌++◌, IfSome, length, []};
ghost use Rattle.tap_views.specs.Token.{bytes_of};
ghost use Rattle.tariffs.specs.Fares.{Fares};

use account_rule::{TapIn, WindowView};
use fare_caps::CappedAccount;
use histories::Entry;
use tap_views::{TapFields, Token};
use tariffs::{Clock, FareTable, Mode};

/// No bytes are put together: they lie in the tap that names the token.
#[inline(always)]
fn named_bytes<'a>(token: Token, tap: &'a TapFields) -> &'a [u8]
    requires { token_of_tap tap.now ≡ token }
    ensures bytes { result.now ≡ bytes_of token }
    ensures long { length result.now ≡ 16 }
{
    // proof: these bytes name a token
    let _named = Token::of(&tap.token);
    &tap.token
}

/// A token whose taps are posted, with its account after those posted.
#[derive(Clone, Copy)]
pub struct Replay {
    pub token: Token,
    account: CappedAccount,
}

impl Replay {
    /// Before the first tap of the token: whatever other tokens' entries there are.
    pub fn of(token: Token) -> Self
        ensures token { result.token ≡ token }
        ensures none { (fares : Fares) (earlier : List Entry) → own token earlier ≡ []
            → HasPosted fares result earlier }
    {
        Replay {
            token,
            account: CappedAccount::fresh(),
        }
    }

    /// Posts the token's next tap, whose moment is in milliseconds since 1970, and gives its entry.
    /// The mode is that of the tap's validator.
    #[inline(always)]
    pub fn next(
        &mut self,
        table: &FareTable,
        clock: &Clock,
        tap: &TapFields,
        mode: Option<Mode>,
    ) -> Entry
        requires clock { clock.now ≡ table.now.zone }
        requires early { tap.now.moment < 4_102_444_800_000 }
        requires its { token_of_tap tap.now ≡ self.old.token }
        requires mode { IsModeAt table.now tap.now.moment tap.now.validator mode }
        requires within { IfSome mode (λ mode. mode.position < length table.now.meaning.modes) }
        requires posted { (earlier : List Entry) × HasPosted table.now self.old earlier }
        ensures entry { (earlier : List Entry) → HasPosted table.now self.old earlier
            → result ≡ answered table.now earlier (unposted tap.now) }
        ensures posted { (earlier : List Entry) → HasPosted table.now self.old earlier
            → HasPosted table.now self.new (earlier ++ result ∷ []) }
        ensures token { self.new.token ≡ self.old.token }
    {
        let bytes = named_bytes(self.token, tap);
        let seen = TapIn {
            moment: tap.moment,
            mode,
        };
        let reply = self.account.step(table, clock, bytes, seen);
        Entry {
            token: self.token,
            validator: tap.validator,
            moment: tap.moment,
            answer: reply.answer,
            cents: reply.cents,
        }
    }

    /// The token's last window, if it has one.
    pub fn window(&self, table: &FareTable) -> Option<WindowView>
        ensures { (entries : List Entry) → HasPosted table.now self.now entries
            → result ≡ capped_window (capped_rules_of table.now (bytes_of self.now.token))
            (taps_of table.now self.now.token entries) }
    {
        self.account.window(table)
    }
}
