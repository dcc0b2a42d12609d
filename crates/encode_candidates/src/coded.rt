// What `shortest` takes: candidates, and numbers of which nothing is known.
#![tactic(auto)]

ghost use Rattle.std.specs.Prelude.{◌≡◌};
ghost use Rattle.coding.specs.Candidates.{Cand, code_length};
ghost use Rattle.encode_candidates.specs.Packed.{size_by_number, cand_of, cand, OneOrTwo, numbers_one_or_two, one_or_two};

use crate::candidate::Candidate;

/// What stands for a candidate.
pub trait Coded: Copy {
    ghost stands_for: { Self → Cand };

    /// The bytes of its code, which of SP and APR is one.
    fn length(self) -> u32
        ensures { result ≡ code_length (stands_for self) };

    // The code is a byte, or a row's and a cell's.
    ghost one_or_two: { (x : Self) → OneOrTwo (stands_for x) };
}

impl Coded for Candidate {
    ghost stands_for = { cand };

    fn length(self) -> u32 {
        self.length()
    }

    ghost one_or_two = { one_or_two };
}

/// A candidate's three numbers, whatever they are: a set's code, 7 for none, a code in GL form, and a size: 0 either, 1
/// narrow, else wide.
impl Coded for (u8, u16, u8) {
    ghost stands_for = { λ x. cand_of x.0 x.1 (size_by_number x.2) };

    fn length(self) -> u32 {
        if self.0 == 7 {
            return 1;
        }
        if self.1 < 256 { 1 } else { 2 }
    }

    ghost one_or_two = { λ x. numbers_one_or_two x.0 x.1 (size_by_number x.2) };
}
