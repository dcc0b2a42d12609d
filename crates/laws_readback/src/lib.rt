// Reading back: specs/ReadBack.antt states the law, proofs/ReadBack.antt proves it.
#![tactic(auto)]

/// A crate has a function; nothing calls this one.
pub fn none() -> usize {
    0
}
