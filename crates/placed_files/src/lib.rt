//! Files read at any offset: of the system, whose bytes no proof knows, or bytes in memory.
#![tactic(auto)]

mod fill;
mod placed;
mod stamp;
mod unopened;

pub use fill::{Unread, fill_from};
pub use placed::{InMemory, Placed};
pub use stamp::FileStamp;
pub use unopened::{Unopened, open_regular};
