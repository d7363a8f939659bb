//! What each program does alike: it loads fare tables, reports usage errors and faults, and gives
//! clap its arguments.
#![tactic(auto)]

mod answers;
mod arguments;
mod complaints;
mod escaped;
mod escaping;
mod file_list;
mod following;
mod held_streams;
mod list_words;
mod listed_words;
mod loading;
mod output;
mod table_line;
mod table_loads;
mod table_words;
mod terminal_line;
mod version;
mod words;

pub use answers::{print, show_answer};
pub use arguments::{WordsFault, unread_words, words_of};
pub use complaints::report_line;
pub use escaped::Escaped;
pub use escaping::Escaping;
pub use file_list::ListFault;
pub use following::{FollowLine, NamedClassLine, NextFault, table_after};
pub use held_streams::hold_streams;
pub use list_words::{ListWords, take_list};
pub use loading::{FileFault, STANDARD_INPUT, load_file, open_file};
pub use output::Output;
pub use table_line::{NamedTableLine, TableLine};
pub use table_loads::{Tables, TablesFault, load_named, load_tables};
pub use table_words::{DateFault, TableWord, TableWords, WrittenDate, WrongWord, date_fault};
pub use terminal_line::{PACE_MS, QUIET_MS, TerminalLine};
pub use version::VERSION;
pub use words::{
    add_list_args, files_arg, flag_arg, flag_in, names_in, new_command, number_arg, option_arg,
    positional_arg, repeated_arg, value_in, with_arg, with_help,
};
pub use world::{LOAD_LIMIT_BYTES, LoadFault, WriteFault};
