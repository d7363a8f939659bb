//! The fields of a ledger's line that are not plain numbers.

ghost use Rattle.ledger_fields.specs.Fields.{fits, is_token_byte, is_word, is_word_byte};
ghost use Rattle.ledger_fields.specs.{declared.field.Field.TheVariants.Ride, inside.Fronts.IsFront};
ghost use Rattle.std.specs.{List.list_all, Prelude.◌≡◌, Prelude.◌<◌, Prelude.IfSome};

use crate::moment::{MOMENT_BYTES, is_moment};
use line_forms::column::{column_before, ends_column};
use line_forms::form::FormOf;
use line_forms::number::number_32_of;

/// The first year after those of the moments of taps.
const TAP_YEAR_LIMIT: u64 = 2_100;

/// The first year after those that a moment's text can have.
const YEAR_LIMIT: u64 = 10_000;

/// How many digits a token has.
const TOKEN_BYTES: usize = 32;

/// How many bytes a word has at most.
const MAX_WORD_BYTES: usize = 16;

/// How many bytes a reason has at most: a word, a colon and the name of a cap.
const MAX_REASON_BYTES: usize = 32;

/// What a field has.
#[derive(Clone, Copy)]
pub(crate) enum Field {
    /// 32 hexadecimal digits in lower case.
    Token,
    /// The moment of a tap.
    Moment,
    /// The moment of a tap, or nothing.
    PastMoment,
    /// A moment, or nothing.
    LaterMoment,
    /// At most 16 letters and hyphens.
    Word,
    /// At most 32 letters, hyphens and colons.
    Reason,
    /// A number of at most 32 bits, or nothing.
    Ride,
}

fn is_token_byte(byte: u8) -> bool
    ensures { result ≡ is_token_byte byte }
{
    (48 <= byte && byte <= 57) || (97 <= byte && byte <= 102)
}

fn is_word_byte(mark: u8, byte: u8) -> bool
    ensures { result ≡ is_word_byte mark byte }
{
    (97 <= byte && byte <= 122) || (byte == 45 || byte == mark)
}

fn is_word(most: usize, mark: u8, text: &[u8]) -> bool
    ensures { result ≡ is_word most mark text.now }
{
    text.len() <= most && text.iter().all(|byte| is_word_byte(mark, *byte))
}

/// The size of the word at the front of the text, if a column of it is there.
#[inline(always)]
fn word_front(most: usize, mark: u8, text: &[u8]) -> Option<usize>
    requires { 44 < mark }
    ensures { IfSome result (IsFront (is_word most mark) text.now) }
{
    let mut size = 0;
    for byte in text {
        if !is_word_byte(mark, *byte) {
            return if ends_column(*byte) && size <= most {
                Some(size)
            } else {
                None
            };
        }
        size += 1;
    }
    None
}

/// Each of the 32 bytes is tested, with no branch: so they are tested at once.
fn are_token_bytes(text: &[u8]) -> bool
    ensures { result ≡ list_all is_token_byte text.now }
{
    let mut are_so = true;
    for byte in text {
        are_so = are_so & is_token_byte(*byte);
    }
    are_so
}

impl Field {
    #[inline(always)]
    fn fits(self, text: &[u8]) -> bool
        ensures { result ≡ fits self text.now }
    {
        match self {
            Field::Token => text.len() == TOKEN_BYTES && are_token_bytes(text),
            Field::Moment => is_moment(text, TAP_YEAR_LIMIT),
            Field::PastMoment => text.is_empty() || is_moment(text, TAP_YEAR_LIMIT),
            Field::LaterMoment => text.is_empty() || is_moment(text, YEAR_LIMIT),
            Field::Word => is_word(MAX_WORD_BYTES, b'-', text),
            Field::Reason => is_word(MAX_REASON_BYTES, b':', text),
            Field::Ride => text.is_empty() || number_32_of(text).is_some(),
        }
    }
}

impl Field {
    /// This size, if a column of the field is at the front of the text, and has it.
    #[inline(always)]
    fn sized(self, size: usize, text: &[u8]) -> Option<usize>
        requires { ¬ (self ≡ Ride) }
        ensures { IfSome result (IsFront (fits self) text.now) }
    {
        if size < text.len() && ends_column(text[size]) && self.fits(&text[..size]) {
            Some(size)
        } else {
            None
        }
    }

    /// The size of the column at the front of the text, where it is found at once that it fits.
    #[inline(always)]
    fn front(self, text: &[u8]) -> Option<usize>
        ensures { IfSome result (IsFront (fits self) text.now) }
    {
        match self {
            Field::Token => self.sized(TOKEN_BYTES, text),
            Field::Moment | Field::PastMoment | Field::LaterMoment => {
                self.sized(MOMENT_BYTES, text)
            }
            Field::Word => word_front(MAX_WORD_BYTES, b'-', text),
            Field::Reason => word_front(MAX_REASON_BYTES, b':', text),
            Field::Ride => None,
        }
    }
}

impl<'a> FormOf<'a> for Field {
    type Value = &'a [u8];

    ghost use Rattle.std.specs.Prelude.{List, ℕ};
    ghost use Rattle.line_forms.specs.FormLaws.{column_law};
    ghost use Rattle.line_forms.specs.Columns.{BeginsAfterColumn, IsColumn, column_where};
    ghost use Rattle.ledger_fields.specs.Fields.{fits};

    ghost Said = { List ℕ };

    ghost said = { λ text. text.now };

    ghost reads = { λ field. column_where (fits field) };

    ghost says = { λ field. IsColumn (fits field) };

    ghost ends = { λ field. BeginsAfterColumn };

    ghost valid = { λ field. Unit {0} };

    #[inline(always)]
    fn read(&self, text: &'a [u8]) -> Option<(&'a [u8], &'a [u8])> {
        if let Some(size) = self.front(text) {
            return Some((&text[..size], &text[size..]));
        }
        let size = column_before(text);
        let column = &text[..size];
        if self.fits(column) {
            Some((column, &text[size..]))
        } else {
            None
        }
    }

    ghost law = { λ field valid. column_law (fits field) };
}
