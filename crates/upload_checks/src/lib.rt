//! What an auditor looks for in uploads. It is tested, and nothing but safety is proved.
#![tactic(auto)]

mod common_tokens;
mod findings;
mod inactive_days;
mod near_duplicates;
mod repeats;

pub use common_tokens::{CommonCounts, CommonTokens};
pub use findings::{Findings, look};
pub use inactive_days::{InactiveDays, InactiveRun, find_inactive_days};
pub use near_duplicates::NearDuplicate;
pub use repeats::Repeat;
