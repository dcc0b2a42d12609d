// Answers of the Rust in files, which programs replay, and counts of how many differ.
#![tactic(auto)]

pub mod buffers;
pub mod compared;
pub mod files;
pub mod numbers;
pub mod tally;
