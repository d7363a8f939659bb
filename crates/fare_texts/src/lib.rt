//! The texts of a history, as bytes that definitions name: moments, tokens, counts, statements, why
//! each line costs what it costs, the ledger as CSV, and the explained statement of one token.
#![tactic(auto)]

mod counts;
mod digits;
mod explained;
mod explainer;
mod form;
mod ledger;
mod ledger_line;
mod ledger_lines;
mod line;
mod lines;
mod local;
mod moment;
mod names;
mod no_transfer_words;
mod pairs;
mod print_fault;
mod reason_fields;
mod reason_words;
mod statement;
mod writing;

pub use counts::{write_counts, write_totals};
pub use digits::Digits;
pub use explained::{explained_text_of, write_explained_of};
pub use explainer::Explainer;
pub use form::Form;
pub use ledger::{LINE_ROOM_BYTES, head_with_room, ledger_text_of, write_ledger_of};
pub use ledger_line::write_line;
pub use ledger_lines::{head_line, write_token_lines};
pub use line::Line;
pub use lines::{PIECE_BYTES, go_on_to, pass_on, pass_piece};
pub use local::write_local;
pub use moment::write_moment;
pub use names::answer_name;
pub use no_transfer_words::write_no_transfer;
pub use print_fault::PrintFault;
pub use reason_words::write_reason_words;
pub use statement::{statement_text, write_entry_words, write_statement_head, write_window_words};
pub use writing::{write_bytes, write_out};
