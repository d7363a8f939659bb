//! A writer that writes a text in another form.

use crate::layout::Layout;
use crate::shape::{Form, Shape};
use std::alloc::Global;
use std::io;
use std::io::{ErrorKind, Write};

/// How many bytes are collected before they are written.
const SEND_BYTES: usize = 65_536;

/// A writer of a text that writes it in a form. The text ends where it is flushed: a program flushes
/// its output once, and only after the whole text.
#[derive(Drop)]
pub struct Shaped<W: Write + Drop> {
    to: W,
    /// None if the text is written as it is.
    shape: Option<Shape>,
    /// What is after the last line feed.
    line: Vec<u8>,
    /// What is not written yet.
    out: Vec<u8>,
}

impl<W: Write + Drop> Shaped<W> {
    ghost use Rattle.std.specs.Prelude.{◌≡◌, None};

    /// A writer to which nothing was written yet.
    pub fn new(alloc: Global, to: W, layout: Layout, form: Form) -> Shaped<W>
        ensures to { result.to ≡ to }
        ensures text { form ≡ Form.Text → result.shape ≡ None }
    {
        let shape = match form {
            Form::Text => None,
            Form::Csv => Some(Shape::new(layout, false)),
            Form::Json => Some(Shape::new(layout, true)),
        };
        Shaped {
            to,
            shape,
            line: Vec::new(alloc),
            out: Vec::new(alloc),
        }
    }

    fn send(&mut self) -> io::Result<()>
        ensures { self.new.shape ≡ self.old.shape }
    {
        self.to.write_all(&self.out)?;
        self.out.clear();
        Ok(())
    }
}

/// Takes a piece of a text, which ends at its first line feed or has none.
fn take(shape: &mut Shape, line: &mut Vec<u8>, piece: &[u8], out: &mut Vec<u8>) -> io::Result<()> {
    let Some((b'\n', rest)) = piece.split_last() else {
        line.extend_from_slice(piece)?;
        return Ok(());
    };
    if line.is_empty() {
        return shape.add(rest, out);
    }
    line.extend_from_slice(rest)?;
    shape.add(line, out)?;
    line.clear();
    Ok(())
}

impl<W: Write + Drop> Write for Shaped<W> {
    ghost use Rattle.text_forms.specs.Shaped.{if_text};

    // They are those of the writer below only if the text is written as it is.
    ghost contents = { λ s. if_text s.shape (W.contents s.to) };

    fn write(&mut self, bytes: &[u8]) -> io::Result<usize> {
        if self.shape.is_none() {
            return self.to.write(bytes);
        }
        for piece in bytes.split_inclusive(|byte| *byte == b'\n') {
            if let Some(shape) = &mut self.shape {
                take(shape, &mut self.line, piece, &mut self.out)?;
            }
            if self.out.len() >= SEND_BYTES {
                self.send()?;
            }
        }
        self.send()?;
        Ok(bytes.len())
    }

    fn flush(&mut self) -> io::Result<()> {
        if let Some(shape) = &mut self.shape {
            if !self.line.is_empty() {
                return Err(io::Error::from(ErrorKind::InvalidData));
            }
            shape.finish(&mut self.out)?;
            self.send()?;
        }
        self.to.flush()
    }
}
