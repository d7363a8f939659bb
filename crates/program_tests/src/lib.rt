//! Tests of the program by its public calls: readers and writers that fail, files that are read
//! ahead, notes of a run, sorted files. They are apart, so that the program is not proved again.
#![tactic(auto)]

#[cfg(test)]
mod loading;
#[cfg(test)]
mod noting;
#[cfg(test)]
mod pieces;
#[cfg(test)]
mod provided;
#[cfg(test)]
mod running;
#[cfg(test)]
mod scarce;
#[cfg(test)]
mod shelf;
#[cfg(test)]
mod sorted;
#[cfg(test)]
mod sorted_ranges;
#[cfg(test)]
mod writers;
