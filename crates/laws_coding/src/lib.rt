// The laws of coding: specs/Coding.antt states them, proofs/Coding.antt proves them.
#![tactic(auto)]

/// A crate has a function; nothing calls this one.
pub fn none() -> usize {
    0
}
