//! The values of a line, by its form.

/// What comes next in a line.
#[derive(Clone, Copy)]
pub(crate) enum Next<'f, 'l> {
    /// A number, after its name.
    Number(&'f [u8], &'l [u8]),
    /// Another value, after its name.
    Text(&'f [u8], &'l [u8]),
    /// Nothing: both are at their end.
    End,
    /// The line does not have the form.
    Unfit,
}

/// A run of bytes.
#[derive(Clone, Copy)]
enum Run {
    /// Of a form: those that stand for themselves.
    Literal,
    /// Of a form: a name.
    Name,
    Digits,
    Word,
}

fn is_in(run: Run, byte: u8) -> bool {
    match run {
        Run::Literal => !matches!(byte, b'#' | b'@' | b'*'),
        Run::Name => matches!(byte, b'a'..=b'z' | b'_'),
        Run::Digits => matches!(byte, b'0'..=b'9'),
        Run::Word => byte != b' ' && byte != b',',
    }
}

/// The bytes before the first that is not in the run, and those from it on.
fn split_run<'t>(text: &'t [u8], run: Run) -> (&'t [u8], &'t [u8]) {
    for (index, byte) in text.iter().enumerate() {
        if !is_in(run, *byte) {
            return text.split_at(index);
        }
    }
    (text, &[])
}

/// Digits that are a number of JSON, too.
fn is_number(digits: &[u8]) -> bool {
    match digits {
        [] => false,
        [b'0', _, ..] => false,
        _ => true,
    }
}

/// What is left of a form and of a line.
#[derive(Drop)]
pub(crate) struct Fields<'f, 'l> {
    form: &'f [u8],
    line: &'l [u8],
}

impl<'f, 'l> Fields<'f, 'l> {
    pub(crate) fn new(form: &'f [u8], line: &'l [u8]) -> Fields<'f, 'l> {
        Fields { form, line }
    }

    pub(crate) fn next(&mut self) -> Next<'f, 'l> {
        let (words, form) = split_run(self.form, Run::Literal);
        let Some(line) = self.line.strip_prefix(words) else {
            return Next::Unfit;
        };
        let Some((mark, form)) = form.split_first() else {
            return if line.is_empty() {
                Next::End
            } else {
                Next::Unfit
            };
        };
        let (name, form) = split_run(form, Run::Name);
        self.form = form;
        if *mark == b'*' {
            self.line = &[];
            return Next::Text(name, line);
        }
        let is_digits = *mark == b'#';
        let run = if is_digits { Run::Digits } else { Run::Word };
        let (value, line) = split_run(line, run);
        self.line = line;
        if is_digits && is_number(value) {
            Next::Number(name, value)
        } else if is_digits || value.is_empty() {
            Next::Unfit
        } else {
            Next::Text(name, value)
        }
    }
}

/// Whether the line has the form.
pub(crate) fn fits(form: &[u8], line: &[u8]) -> bool {
    let mut fields = Fields::new(form, line);
    for _mark in form {
        match fields.next() {
            Next::Number(_, _) | Next::Text(_, _) => {}
            Next::End => return true,
            Next::Unfit => return false,
        }
    }
    false
}
