//! The fields of a line, and the values that they represent.

ghost use Rattle.std.specs.Prelude.{◌≡◌, ◌++◌, ◌∷◌, ◌↔◌, ℕ, List, All, IsTrue, MatchOption};
ghost use Rattle.tap_rows.specs.Fields.{AreFields, FieldRepresents};

/// What is before the first such byte, and what is after it.
pub(crate) fn split_at(text: &[u8], wanted: u8) -> Option<(&[u8], &[u8])>
    ensures { MatchOption result (All (λ byte. ¬ (byte ≡ wanted)) text.now)
        (λ (before, after). All (λ byte. ¬ (byte ≡ wanted)) before.now
        × (text.now ≡ before.now ++ wanted ∷ after.now)) }
{
    let at = text.iter().position(|byte| *byte == wanted)?;
    Some((&text[..at], &text[at + 1..]))
}

pub(crate) fn three_fields(line: &[u8]) -> Option<(&[u8], &[u8], &[u8])>
    ensures { MatchOption result ((first second third : List ℕ)
        → ¬ (AreFields line.now first second third))
        (λ (first, second, third). AreFields line.now first.now second.now third.now) }
{
    let Some((first, rest)) = split_at(line, b',') else {
        return None;
    };
    let Some((second, third)) = split_at(rest, b',') else {
        return None;
    };
    if third.contains(&b',') {
        return None;
    }
    Some((first, second, third))
}

pub(crate) fn value_of(field: &[u8]) -> Option<&[u8]>
    ensures { MatchOption result ((value : List ℕ)
        → ¬ (FieldRepresents field.now value)) (λ value. FieldRepresents field.now value.now) }
{
    if field.is_empty() || field[0] != b'"' {
        return Some(field);
    }
    let last = field.len() - 1;
    if last > 0 && field[last] == b'"' {
        Some(&field[1..last])
    } else {
        None
    }
}

pub(crate) fn represents(field: &[u8], value: &[u8]) -> bool
    ensures { IsTrue result ↔ FieldRepresents field.now value.now }
{
    match value_of(field) {
        Some(found) => found == value,
        None => false,
    }
}
