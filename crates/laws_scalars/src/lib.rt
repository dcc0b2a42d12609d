// The characters of a decoded text: specs/Scalars.antt states the law, proofs/Scalars.antt proves it.
#![tactic(auto)]

/// A crate has a function; nothing calls this one.
pub fn none() -> usize {
    0
}
