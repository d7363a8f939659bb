//! A line that is made from its end to its start.

ghost use Rattle.std.specs.Prelude.{◌≡◌, ◌+◌, ◌≤◌, [], ◌++◌, length, string_bytes, OnOk};
ghost use Rattle.std.specs.Fmt.{decimal};
ghost use Rattle.hex.specs.Hex.{encode_lower};

use itoa::{Buffer, write_digits};
use std::alloc::AllocError;
use std::marker::Model;

/// More bytes than the longest line of a report has: seven numbers of at most 40 digits, a token and
/// the words.
const ROOM_BYTES: usize = 384;

/// The end of a line. Text is put before it, so that digits are written where they stay.
#[derive(Drop)]
pub struct Line {
    /// The room, whose end is the line.
    bytes: [u8; ROOM_BYTES],
    /// Where the line starts.
    start: usize,
}

impl Model for Line {
    ghost use Rattle.std.specs.Prelude.{ℕ, ◌≤◌, List, drop};

    ghost Value = { List ℕ };

    ghost view = { λ l. drop l.start l.bytes };

    ghost invariant = { λ l. l.start ≤ 384 };
}

impl Line {
    /// An empty line.
    pub fn new() -> Self
        ensures { result ≡ [] }
    {
        Line {
            bytes: [0; ROOM_BYTES],
            start: ROOM_BYTES,
        }
    }

    /// Empties the line.
    #[inline(always)]
    pub fn clear(&mut self)
        ensures { self.new ≡ [] }
    {
        self.start = ROOM_BYTES;
    }

    /// What the line has.
    #[inline(always)]
    pub fn bytes(&self) -> &[u8]
        ensures value { result.now ≡ self.now }
        ensures few { length result.now ≤ 384 }
    {
        &self.bytes[self.start..]
    }

    /// Puts a text before what is there.
    #[inline(always)]
    pub fn put(&mut self, text: &[u8])
        requires { length text.now + length self.old ≤ 384 }
        ensures put { self.new ≡ text.now ++ self.old }
        ensures long { length self.new ≡ length text.now + length self.old }
    {
        let from = self.start - text.len();
        self.bytes[from..self.start].copy_from_slice(text);
        self.start = from;
    }

    /// Puts the digits of a number before what is there: at most 20 bytes.
    #[inline(always)]
    pub fn put_short(&mut self, number: u64)
        requires { length self.old + 40 ≤ 384 }
        ensures put { self.new ≡ decimal number ++ self.old }
        ensures short { length self.new ≤ length self.old + 40 }
    {
        self.start = write_digits(number, &mut self.bytes[..], self.start);
    }

    /// Puts the digits of a number before what is there: at most 40 bytes.
    #[inline(always)]
    pub fn put_number(&mut self, number: u128)
        requires { length self.old + 40 ≤ 384 }
        ensures put { self.new ≡ decimal number ++ self.old }
        ensures short { length self.new ≤ length self.old + 40 }
    {
        if number <= u128::from(u64::MAX) {
            self.put_short(number as u64);
        } else {
            self.put_wide(number);
        }
    }

    fn put_wide(&mut self, number: u128)
        requires { length self.old + 40 ≤ 384 }
        ensures put { self.new ≡ decimal number ++ self.old }
        ensures short { length self.new ≤ length self.old + 40 }
    {
        let mut digits = Buffer::new();
        self.put(digits.format(number).as_bytes());
    }

    /// Puts a word and a number there.
    #[inline(always)]
    pub fn put_count(&mut self, word: &[u8], number: u128)
        requires { length word.now + (40 + length self.old) ≤ 384 }
        ensures put { self.new ≡ word.now ++ (decimal number ++ self.old) }
        ensures short { length self.new ≤ length word.now + (40 + length self.old) }
    {
        self.put_number(number);
        self.put(word);
    }

    /// Puts 16 bytes as 32 hexadecimal digits in lower case before what is there.
    #[inline(always)]
    pub fn put_digits(&mut self, bytes: &[u8; 16])
        requires { length self.old + 32 ≤ 384 }
        ensures put { self.new ≡ encode_lower bytes.now ++ self.old }
        ensures long { length self.new ≡ length self.old + 32 }
    {
        let from = self.start - 32;
        let _ = hex::encode_to_slice(&bytes[..], &mut self.bytes[from..self.start]);
        self.start = from;
    }

    /// Appends the line to the text.
    #[inline(always)]
    pub(crate) fn append_to(&self, text: &mut String) -> Result<(), AllocError>
        ensures { OnOk result (string_bytes text.new ≡ string_bytes text.old ++ self.now) }
    {
        match simdutf8::compat::from_utf8(self.bytes()) {
            Ok(line) => text.push_str(line),
            Err(_) => Err(AllocError),
        }
    }
}
