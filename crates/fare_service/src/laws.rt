//! Theorems about the definitions and about an outcome, each the contract of a small function.

mod draws;
mod positions;
mod schedules;

pub use draws::drawn_once;
pub use histories::laws::plain_history;
pub use positions::{posted_taps, posting_order};
pub use schedules::{
    none_was_cut, report_is_plain, same_texts, statements_are_plain, tokens_are_named,
    uncut_ends_are_plain,
};
