//! The shard of a token.

ghost use Rattle.std.specs.Prelude.{◌≡◌, ◌<◌, ◌≤◌, length};
ghost use Rattle.tap_views.specs.Shards.{shard_of_token};

use byteorder::{BigEndian, ByteOrder};

/// The shard of a token of 16 bytes: the number in its last two bytes modulo the number of shards.
pub fn shard_of(token: &[u8], shards: u32) -> u32
    requires token { length token.now ≡ 16 }
    requires least { 1 ≤ shards }
    requires most { shards ≤ 64 }
    ensures value { result ≡ shard_of_token token.now shards }
    ensures below { result < shards }
{
    BigEndian::read_u16(&token[14..]) as u32 % shards
}
