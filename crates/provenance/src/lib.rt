//! What a text was made by: the version, the words, and the sizes and SHA-256 of the files that were
//! read and of the text. It is tested, and nothing but safety is proved.
#![tactic(auto)]

mod made_by;
mod new_file;
mod run_sums;
mod sum;

pub use made_by::{MadeBy, made_by_text};
pub use new_file::make_new;
pub use run_sums::{FileSum, FileSumming, RunSums, SumFault, Sums};
pub use sum::{Sum, Summing};
