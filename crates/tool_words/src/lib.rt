//! What the tools' command line requests: each subcommand with its arguments, as `clap` reads them,
//! the rules between these, and the task that they make.
#![tactic(auto)]

mod arguments;
mod encode_words;
mod later_table;
mod moments;
mod named_list;
mod program;
mod reading;
mod rules;
mod subcommands;
mod table_words;
mod task;
mod uploads_words;
mod words;

pub use later_table::LaterTable;
pub use named_list::{list_words, named_format};
pub use reading::is_input;
pub use task::{
    BoundsWords, CorrectionsWords, LookWords, RowsWords, SortingWords, TableQuestion, Task,
    ValidPrefixWords,
};
pub use words::read;
