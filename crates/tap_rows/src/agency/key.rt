//! The key under which any text becomes a token.

ghost use Rattle.std.specs.Prelude.{◌≡◌, ◌≤◌, length, take};
ghost use Rattle.std.specs.Result.{result_map_both};
ghost use Rattle.tap_rows.specs.Keys.{block_of, code_by, key_in, key_of, masked, with_zeros};

use sha2::{Digest, Sha256};

/// A key has as many bytes at most.
const MAX_KEY_BYTES: usize = 65536;

/// What is wrong with the file of a key.
#[derive(Clone, Copy, Debug, PartialEq, Eq)]
pub enum WrongKey {
    Empty,
    Long,
}

/// A key of HMAC-SHA-256, as the block of 64 bytes that the codes begin with.
#[derive(Clone, Copy)]
pub struct TokenKey {
    block: [u8; 64],
}

fn masked(block: &[u8; 64], mask: u8) -> [u8; 64]
    ensures { result ≡ masked mask block.now }
{
    let mut out = [0; 64];
    for index in 0..64 {
        out[index] = block[index] ^ mask;
    }
    out
}

fn code_by(block: &[u8; 64], text: &[u8]) -> [u8; 32]
    ensures { result ≡ code_by block.now text.now }
{
    let mut inner = Sha256::new_with_prefix(masked(block, 0x36));
    inner.update(text);
    let mut outer = Sha256::new_with_prefix(masked(block, 0x5c));
    outer.update(inner.finalize());
    outer.finalize()
}

fn key_in(text: &[u8]) -> &[u8]
    ensures { result.now ≡ key_in text.now }
{
    match text {
        [key @ .., b'\n'] => key,
        _ => text,
    }
}

fn with_zeros(text: &[u8]) -> [u8; 64]
    requires { length text.now ≤ 64 }
    ensures { result ≡ with_zeros text.now }
{
    let mut block = [0; 64];
    block[..text.len()].copy_from_slice(text);
    block
}

fn block_of(key: &[u8]) -> [u8; 64]
    ensures { result ≡ block_of key.now }
{
    if key.len() > 64 {
        with_zeros(&Sha256::digest(key))
    } else {
        with_zeros(key)
    }
}

impl TokenKey {
    /// The key that is the bytes of a file, without one line feed at its end.
    pub fn of_file(text: &[u8]) -> Result<TokenKey, WrongKey>
        ensures { result_map_both (λ key. key.block) (λ wrong. wrong) result ≡ key_of text.now }
    {
        let key = key_in(text);
        if key.is_empty() {
            return Err(WrongKey::Empty);
        }
        if key.len() > MAX_KEY_BYTES {
            return Err(WrongKey::Long);
        }
        Ok(TokenKey {
            block: block_of(key),
        })
    }

    /// The token of a text: the first 16 bytes of its code.
    pub(crate) fn token_of(&self, text: &[u8]) -> [u8; 16]
        ensures { result ≡ take 16 (code_by self.now.block text.now) }
    {
        let code = code_by(&self.block, text);
        let mut token = [0; 16];
        token.copy_from_slice(&code[..16]);
        token
    }
}
