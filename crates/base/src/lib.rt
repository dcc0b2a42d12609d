// Words for lists (specs/Lists.antt, specs/First.antt), and laws of lists and tests (proofs/) that several crates use.
#![tactic(auto)]

/// A crate has a function; nothing calls this one.
pub fn none() -> usize {
    0
}
