//! A token as it is shown.

ghost use Rattle.hex.specs.Hex.{encode_lower};
ghost use Rattle.std.specs.Prelude.{◌≡◌, Some};
ghost use Rattle.tap_views.specs.Token.{bytes_of};

use std::fmt;
use tap_views::Token;

/// The 32 hexadecimal digits of a token.
pub(crate) fn digits_of(token: Token) -> [u8; 32]
    ensures { result ≡ encode_lower (bytes_of token) }
{
    let bytes = token.bytes();
    let mut digits = [0u8; 32];
    let _ = hex::encode_to_slice(&bytes[..], &mut digits);
    digits
}

/// A token as 32 hexadecimal digits.
#[derive(Drop)]
pub struct Digits(pub Token);

impl fmt::Display for Digits {
    ghost use Rattle.hex.specs.Hex.{encode_lower};
    ghost use Rattle.tap_views.specs.Token.{bytes_of};

    ghost output = { λ d. Some (encode_lower (bytes_of d.0)) };

    fn fmt<W: fmt::Write>(&self, f: &mut fmt::Formatter<W>) -> fmt::Result {
        let digits = digits_of(self.0);
        match std::str::from_utf8(&digits) {
            Ok(text) => f.write_str(text),
            Err(_) => Err(fmt::Error),
        }
    }
}
