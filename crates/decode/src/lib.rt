// 8-unit code to text: decode.rs. ARIB STD-B24 Vol.1 Part 2 §7.1, Annex E.4.
#![tactic(auto)]

pub mod call;
