//! What a person at a terminal can do about a fault: lines after those that the specification fixes.
//! It is tested, and nothing but safety is proved.
#![tactic(auto)]

mod damage;
mod faults;
mod hint;
mod kinds;
mod overheard;
mod shown;
mod unwritten;

pub use damage::{damaged, not_uploads};
pub use faults::{Named, end_words, hint_on_fault};
pub use hint::Hint;
pub use kinds::{Kind, kind_of_file};
pub use overheard::{Overheard, Said};
pub use unwritten::Unwritten;
