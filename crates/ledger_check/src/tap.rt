//! The tap that a ledger's line names.

ghost use Rattle.hex.specs.Hex.{encode_lower};
ghost use Rattle.ledger_check.specs.inside.Taps.{tap_fields};
ghost use Rattle.std.specs.Prelude.{◌≡◌, ◌<◌, ◌^◌, IfSome, Some};
ghost use Rattle.tap_views.specs.{Token.Fits, Token.bytes_of, declared.token.Token.Token};

use crate::bytes::field;
use crate::moment::read_moment;
use line_forms::number::number_32_of;
use tap_views::{TapFields, Token};

/// What a line says of a tap.
#[derive(Clone, Copy)]
pub(crate) struct Tap {
    pub(crate) token: Token,
    pub(crate) validator: u32,
    /// When, in milliseconds since 1970-01-01T00:00Z.
    pub(crate) moment: u64,
}

impl Tap {
    pub(crate) fn fields(self) -> TapFields
        ensures { result ≡ tap_fields self }
    {
        TapFields {
            token: self.token.bytes(),
            validator: self.validator,
            moment: self.moment,
        }
    }
}

/// The token of 32 hexadecimal digits.
pub(crate) fn read_token(digits: &[u8]) -> Option<Token>
    ensures fits { IfSome result Fits }
    ensures found { (token : Token) → Fits token → digits.now ≡ encode_lower (bytes_of token)
        → result ≡ Some token }
{
    let mut bytes = [0u8; 16];
    match hex::decode_to_slice(digits, &mut bytes) {
        Ok(()) => Some(Token::of(&bytes)),
        Err(_) => None,
    }
}

/// The tap that a line names at a first look: one that is written otherwise may be read, too.
pub(crate) fn read_tap(line: &[u8]) -> Option<Tap>
    ensures fits { IfSome result (λ tap. Fits tap.token) }
    ensures moment { IfSome result (λ tap. tap.moment < 4_102_444_800_000) }
    ensures validator { IfSome result (λ tap. tap.validator < 2 ^ 32) }
{
    let (digits, rest) = field(line)?;
    let token = read_token(digits)?;
    let (_number, rest) = field(rest)?;
    let (text, rest) = field(rest)?;
    let moment = read_moment(text)?;
    let (digits, _rest) = field(rest)?;
    let validator = number_32_of(digits)?;
    Some(Tap {
        token,
        validator,
        moment,
    })
}
