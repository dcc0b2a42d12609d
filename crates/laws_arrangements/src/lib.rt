// Every broadcaster's arrangement: specs/Arrangements.antt states the laws, proofs/Arrangements.antt proves them.
#![tactic(auto)]

/// A crate has a function; nothing calls this one.
pub fn none() -> usize {
    0
}
