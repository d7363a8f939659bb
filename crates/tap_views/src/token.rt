//! The name of an account.

ghost use Rattle.std.specs.Prelude.{◌≡◌, length};
ghost use Rattle.tap_views.specs.Token.{Fits, bytes_of};

/// The 16 bytes that name an account, ordered by these bytes: two big-endian numbers, so that
/// order, equality and hash are two machine words each, also if two tokens begin alike.
#[derive(Clone, Copy, Debug, PartialEq, Eq, PartialOrd, Ord, Hash)]
pub struct Token {
    high: u64,
    low: u64,
}

impl Token {
    /// The token of these 16 bytes.
    pub fn of(bytes: &[u8]) -> Self
        requires { length bytes.now ≡ 16 }
        ensures bytes { bytes_of result ≡ bytes.now }
        ensures fits { Fits result }
    {
        let mut high = [0; 8];
        let mut low = [0; 8];
        high.copy_from_slice(&bytes[..8]);
        low.copy_from_slice(&bytes[8..16]);
        Token {
            high: u64::from_be_bytes(high),
            low: u64::from_be_bytes(low),
        }
    }

    /// The token's 16 bytes.
    pub fn bytes(self) -> [u8; 16]
        ensures { result ≡ bytes_of self }
    {
        let high = self.high.to_be_bytes();
        let low = self.low.to_be_bytes();
        [
            high[0], high[1], high[2], high[3], high[4], high[5], high[6], high[7], low[0], low[1],
            low[2], low[3], low[4], low[5], low[6], low[7],
        ]
    }

    /// The number of the last eight bytes, big-endian: of most tokens its bits are random.
    pub fn low(self) -> u64
        ensures { result ≡ self.low }
    {
        self.low
    }
}
