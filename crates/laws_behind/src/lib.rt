// A reading goes alike behind every earlier text: specs/Behind.antt states the laws, proofs/Behind.antt proves them.
#![tactic(auto)]

/// A crate has a function; nothing calls this one.
pub fn none() -> usize {
    0
}
