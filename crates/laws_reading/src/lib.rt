// The laws of reading: specs/Reading.antt states them, proofs/Reading.antt and proofs/Bodies.antt prove them.
#![tactic(auto)]

/// A crate has a function; nothing calls this one.
pub fn none() -> usize {
    0
}
