// The cases of `decode.bin`, and whether the calls without buffers answer as a case says.
#![tactic(auto)]

pub mod case;
pub mod cleaning;
pub mod measuring;
