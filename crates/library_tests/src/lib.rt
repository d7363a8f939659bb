//! Tests of the libraries by their public calls: books, draws, turns, texts of faults, services,
//! damaged uploads, writers that fail, schedules, and files whose reads are short, interrupted or
//! fail. They are apart, so that no library is proved again with them.
#![tactic(auto)]

#[cfg(test)]
mod books;
#[cfg(test)]
mod callers;
#[cfg(test)]
mod damaged;
#[cfg(test)]
mod draws;
#[cfg(test)]
mod filling;
#[cfg(test)]
mod reference;
#[cfg(test)]
mod rows;
#[cfg(test)]
mod runs;
#[cfg(test)]
mod sample;
#[cfg(test)]
mod schedules;
#[cfg(test)]
mod slow;
#[cfg(test)]
mod soak;
#[cfg(test)]
mod stamps;
#[cfg(test)]
mod texts;
#[cfg(test)]
mod turns;
#[cfg(test)]
mod writers;
