//! A token with its digits.

ghost use Rattle.std.specs.Prelude.{◌≡◌};
ghost use Rattle.hex.specs.Hex.{encode_lower};
ghost use Rattle.tap_views.specs.Token.{Fits, bytes_of};

use tap_views::Token;

/// The token of an entry's line that was read, and its digits there.
#[derive(Clone, Copy)]
pub(crate) struct Seen {
    pub(crate) digits: [u8; 32],
    pub(crate) token: Token,
    ghost fits: { Fits token },
    ghost spelled: { digits ≡ encode_lower (bytes_of token) },
}

pub(crate) fn seen_of(token: Token) -> Option<Seen> {
    let mut digits = [0; 32];
    match hex::encode_to_slice(&token.bytes(), &mut digits) {
        Ok(()) => Some(Seen { digits, token }),
        Err(_) => None,
    }
}
