// What needs both the laws of reading and those of coding: specs/TableOfTwelve.antt states it, proofs/TableOfTwelve.antt proves it.
#![tactic(auto)]

/// A crate has a function; nothing calls this one.
pub fn none() -> usize {
    0
}
