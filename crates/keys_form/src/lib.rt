// The form of the lines that the program `keys` reads and prints: specs/Line.antt has it.
#![tactic(auto)]

pub mod parts;
pub mod printing;
