//! The program as a library, over any world and any writer of its text: it charges the taps of
//! upload files by a fare table and prints what they cost, or lists them, each as live, stale or
//! unknown.
#![tactic(auto)]

mod command_line;
mod fault;
mod file_words;
mod lister;
mod listing;
mod named_files;
mod note;
mod noting;
mod options;
mod posting;
mod program;
mod settle;
mod sorted;
mod traced;
mod usage;

pub use file_sources::{Amount, Disk, load_next, prefetch_files};
pub use file_words::{FileWords, FormatWords, list_words};
pub use listing::{ListCounts, Listing, Word};
pub use note::Note;
pub use program::main_over;
pub use program_manners::{Output, WordsFault, unread_words, words_of};
