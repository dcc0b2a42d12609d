// Text to the eight-unit code: encode.rs.
#![tactic(auto)]

pub mod call;
