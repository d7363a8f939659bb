//! What a form is.

ghost use Rattle.std.specs.Prelude.{◌≡◌, ℕ, List, Option, MatchOption};
ghost use Rattle.line_forms.specs.Forms.{IsForm};

/// A form of texts, each of which says a value. The value may borrow from the text.
pub trait FormOf<'a> {
    /// What a text of this form says.
    type Value: Drop;

    /// What the value is in specs.
    ghost Said: { Type 0 };

    ghost said: { Self.Value → Said };

    /// The value at the front of a text, and what follows it.
    ghost reads: { Self → List ℕ → Option (Said × List ℕ) };

    /// The texts that say a value.
    ghost says: { Self → Said → List ℕ → Type 0 };

    /// What may follow such a text.
    ghost ends: { Self → List ℕ → Type 0 };

    /// What this form must have of its own for its law.
    ghost valid: { Self → Type 0 };

    /// The value at the front of the text, and what follows it.
    fn read(&self, text: &'a [u8]) -> Option<(Self::Value, &'a [u8])>
        ensures { MatchOption result (reads self.now text.now ≡ None)
            (λ parts. reads self.now text.now ≡ Some (said parts.0, parts.1.now)) };

    /// The texts that say values are read, and no others.
    ghost law: { (form : Self) → valid form → IsForm (says form) (ends form) (reads form) };
}
