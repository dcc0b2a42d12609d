// What holds between the outermost steps of a reading: specs/Between.antt states the laws, proofs/ proves them.
#![tactic(auto)]

/// A crate has a function; nothing calls this one.
pub fn none() -> usize {
    0
}
