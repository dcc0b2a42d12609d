// What coding means: specs/, as functions on lists. The crate `encode` meets it.
#![tactic(auto)]

/// A crate has a function; nothing calls this one.
pub fn none() -> usize {
    0
}
