//! What the lines of a text say, and where that is in its other forms.

/// A member of the JSON object of a text.
#[derive(Clone, Copy, Debug)]
pub enum Part {
    /// An array of the objects of its lines.
    List(&'static str),
    /// The object of its one line.
    Object(&'static str),
    /// The value of its one line.
    Value(&'static str),
}

impl Part {
    pub(crate) fn name(&self) -> &'static str {
        match self {
            Part::List(name) | Part::Object(name) | Part::Value(name) => name,
        }
    }
}

/// A line: the index of its part, its kind, and its form. In a form `#name` is a number, `@name` a
/// word without a blank or a comma, and `*name` the rest. All else is itself. A line without a kind
/// only begins its part.
#[derive(Clone, Copy, Debug)]
pub struct Line(pub usize, pub &'static str, pub &'static str);

/// A text. The values of a line are in the order of the columns, which CSV has after the kind.
#[derive(Clone, Copy, Debug)]
pub struct Layout {
    pub parts: &'static [Part],
    pub columns: &'static str,
    /// The name of the kinds in JSON. If they have one, the line itself is the last value.
    pub kind: Option<&'static str>,
    /// A line has the first form that fits.
    pub lines: &'static [Line],
}
