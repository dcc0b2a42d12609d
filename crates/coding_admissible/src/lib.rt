// What size controls mean in an admissible coding: specs/Laws.antt.
#![tactic(auto)]

/// A crate has a function; nothing calls this one.
pub fn none() -> usize {
    0
}
