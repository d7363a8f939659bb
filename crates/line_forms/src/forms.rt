//! Forms that are made of others, and whole lines.

ghost use Rattle.std.specs.Prelude.{◌≡◌, ◌∷◌, [], MatchOption};
ghost use Rattle.line_forms.specs.Forms.{IsAfter, IsFirst, IsThen, after, after_read};
ghost use Rattle.line_forms.specs.Forms.{is_end, said_by, then_read};
ghost use Rattle.line_forms.specs.FormLaws.{after_law, then_law};

use crate::form::FormOf;

#[inline(always)]
fn after_byte<'a>(text: &'a [u8], byte: u8) -> Option<&'a [u8]>
    ensures { MatchOption result (after (byte ∷ []) text.now ≡ None)
        (λ rest. after (byte ∷ []) text.now ≡ Some rest.now) }
{
    let (first, rest) = text.split_first()?;
    if byte == *first { Some(rest) } else { None }
}

/// What follows the word with which the text begins. One byte is compared without a call.
#[inline(always)]
pub fn after_word<'a>(text: &'a [u8], word: &[u8]) -> Option<&'a [u8]>
    ensures { MatchOption result (after word.now text.now ≡ None)
        (λ rest. after word.now text.now ≡ Some rest.now) }
{
    match word {
        [byte] => after_byte(text, *byte),
        _ => text.strip_prefix(word),
    }
}

/// A form after a word. It says what the form says.
#[derive(Drop)]
pub struct After<'w, F>(pub &'w [u8], pub F);

impl<'a, 'w, F: FormOf<'a> + Drop> FormOf<'a> for After<'w, F> {
    type Value = F::Value;

    ghost Said = { F.Said };

    ghost said = { F.said };

    ghost reads = { λ form. after_read form.0.now (F.reads form.1) };

    ghost says = { λ form. IsAfter form.0.now (F.says form.1) };

    ghost ends = { λ form. F.ends form.1 };

    ghost valid = { λ form. F.valid form.1 };

    #[inline(always)]
    fn read(&self, text: &'a [u8]) -> Option<(F::Value, &'a [u8])> {
        let rest = after_word(text, self.0)?;
        self.1.read(rest)
    }

    ghost law = { λ form valid. after_law form.0.now (F.law form.1 valid) };
}

/// One form after another.
#[derive(Drop)]
pub struct Then<A, B>(pub A, pub B);

impl<'a, A: FormOf<'a> + Drop, B: FormOf<'a> + Drop> FormOf<'a> for Then<A, B> {
    type Value = (A::Value, B::Value);

    ghost Said = { A.Said × B.Said };

    ghost said = { λ value. (A.said value.0, B.said value.1) };

    ghost reads = { λ form. then_read (A.reads form.0) (B.reads form.1) };

    ghost says = { λ form. IsThen (A.says form.0) (B.says form.1) };

    ghost ends = { λ form. B.ends form.1 };

    ghost valid = { λ form. A.valid form.0 × B.valid form.1
        × IsFirst (A.ends form.0) (B.says form.1) };

    #[inline(always)]
    fn read(&self, text: &'a [u8]) -> Option<((A::Value, B::Value), &'a [u8])> {
        let (first, rest) = self.0.read(text)?;
        let (second, rest) = self.1.read(rest)?;
        Some(((first, second), rest))
    }

    ghost law = { λ form valid. then_law (A.law form.0 valid.0) (B.law form.1 valid.1) valid.2 };
}

/// What a whole line says, with its line feed.
pub fn line_of<'a, F: FormOf<'a>>(form: &F, line: &'a [u8]) -> Option<F::Value>
    ensures { MatchOption result (said_by (F.reads form.now) line.now ≡ None)
        (λ value. said_by (F.reads form.now) line.now ≡ Some (F.said value)) }
{
    let (value, rest) = form.read(line)?;
    if is_feed(rest) { Some(value) } else { None }
}

fn is_feed(text: &[u8]) -> bool
    ensures { result ≡ is_end text.now }
{
    match text {
        [10] => true,
        _ => false,
    }
}
