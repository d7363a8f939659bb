//! A writer that keeps what is reported.

use std::io;
use std::io::Write;

/// How many bytes are kept: a fault line with a name of the most bytes.
const KEPT_BYTES: usize = 4_352;

/// The first bytes that were reported.
#[derive(Drop)]
pub struct Said {
    kept: [u8; KEPT_BYTES],
    used: usize,
}

impl Said {
    /// Whether nothing was reported.
    pub fn is_silent(&self) -> bool {
        self.used == 0
    }

    /// The lines that were kept whole, the first one first.
    pub fn lines(&self) -> &str {
        let text = self.line().unwrap_or("");
        if self.used < KEPT_BYTES {
            return text;
        }
        match text.rsplit_once('\n') {
            Some((whole, _)) => whole,
            None => "",
        }
    }

    /// The text without its last line feed.
    pub fn line(&self) -> Option<&str> {
        let kept = self.kept.get(..self.used).unwrap_or(&[]);
        match str::from_utf8(kept) {
            Ok(text) => Some(text.strip_suffix("\n").unwrap_or(text)),
            Err(_) => None,
        }
    }
}

/// A writer of faults that keeps the first bytes of them.
#[derive(Drop)]
pub struct Overheard<W: Write + Drop> {
    to: W,
    said: Said,
}

impl<W: Write + Drop> Overheard<W> {
    /// A writer to which nothing was written yet.
    pub fn new(to: W) -> Overheard<W> {
        Overheard {
            to,
            said: Said {
                kept: [0; KEPT_BYTES],
                used: 0,
            },
        }
    }

    /// What was reported so far.
    pub fn said(&self) -> &Said {
        &self.said
    }

    /// The writer below, and what was reported.
    pub fn into_parts(self) -> (W, Said) {
        let Overheard { to, said } = self;
        (to, said)
    }
}

impl<W: Write + Drop> Write for Overheard<W> {
    fn write(&mut self, bytes: &[u8]) -> io::Result<usize> {
        for byte in bytes {
            if let Some(byte_kept) = self.said.kept.get_mut(self.said.used) {
                *byte_kept = *byte;
                self.said.used = self.said.used.saturating_add(1);
            }
        }
        self.to.write(bytes)
    }

    fn flush(&mut self) -> io::Result<()> {
        self.to.flush()
    }
}
