//! Usage errors and faults with their control characters escaped.

use std::io;
use std::io::Write;

/// How many bytes are written at once.
const PIECE_BYTES: usize = 256;

/// The first byte of the control characters U+0080 to U+009F.
const LEAD: u8 = 0xc2;

/// A writer of usage errors and faults, which repeat words of the command line. A control character
/// is written as `\xHH`, so that it does nothing to a terminal. So is a line feed within a line
/// `fault: ..`, so that no name looks like a line.
#[derive(Drop)]
pub struct Escaping<W: Write + Drop> {
    to: W,
    piece: [u8; PIECE_BYTES],
    used: usize,
    is_started: bool,
    /// Whether the first byte is that of `fault: ..`.
    is_fault: bool,
    /// Whether the last byte is a line feed that is held back, since it may be within the line.
    has_feed: bool,
    /// Whether the last byte is `LEAD`, and is held back.
    has_lead: bool,
}

fn digit(number: u8) -> u8 {
    match number {
        0..=9 => b'0'.saturating_add(number),
        _ => b'a'.saturating_add(number.saturating_sub(10)),
    }
}

impl<W: Write + Drop> Escaping<W> {
    /// Nothing is written yet.
    pub fn new(to: W) -> Escaping<W> {
        Escaping {
            to,
            piece: [0; PIECE_BYTES],
            used: 0,
            is_started: false,
            is_fault: false,
            has_feed: false,
            has_lead: false,
        }
    }

    fn send(&mut self) -> io::Result<()> {
        let piece = self.piece.get(..self.used).unwrap_or(&[]);
        self.used = 0;
        self.to.write_all(piece)
    }

    fn push(&mut self, byte: u8) -> io::Result<()> {
        if self.used >= PIECE_BYTES {
            self.send()?;
        }
        if let Some(position) = self.piece.get_mut(self.used) {
            *position = byte;
            self.used = self.used.saturating_add(1);
        }
        Ok(())
    }

    fn push_escaped(&mut self, byte: u8) -> io::Result<()> {
        self.push(b'\\')?;
        self.push(b'x')?;
        self.push(digit(byte >> 4))?;
        self.push(digit(byte & 15))
    }

    fn take(&mut self, byte: u8) -> io::Result<()> {
        if !self.is_started {
            self.is_started = true;
            self.is_fault = byte == b'f';
        }
        if self.has_feed {
            self.has_feed = false;
            self.push_escaped(b'\n')?;
        }
        if self.has_lead {
            self.has_lead = false;
            if byte >= 0x80 && byte <= 0x9f {
                return self.push_escaped(byte);
            }
            self.push(LEAD)?;
        }
        match byte {
            LEAD => {
                self.has_lead = true;
                Ok(())
            }
            b'\n' if self.is_fault => {
                self.has_feed = true;
                Ok(())
            }
            b'\n' => self.push(byte),
            0..=31 | 127 => self.push_escaped(byte),
            _ => self.push(byte),
        }
    }

    /// Writes all bytes that are left. If that fails, it cannot be reported.
    pub fn finish(mut self) {
        if self.has_feed {
            let _ = self.push(b'\n');
        }
        let _ = self.send();
        let _ = self.to.flush();
    }
}

impl<W: Write + Drop> Write for Escaping<W> {
    fn write(&mut self, bytes: &[u8]) -> io::Result<usize> {
        for byte in bytes {
            self.take(*byte)?;
        }
        Ok(bytes.len())
    }

    fn flush(&mut self) -> io::Result<()> {
        self.send()?;
        self.to.flush()
    }
}
