// What is put into a lent buffer: specs/Put.antt says it, proofs/ has its laws.
#![tactic(auto)]

/// A crate has a function; nothing calls this one.
pub fn none() -> usize {
    0
}
