// A candidate code of a character, as the search has it.
#![tactic(auto)]

ghost use Rattle.std.specs.Prelude.{◌≡◌, ◌/◌, ◌%◌, ◌≤◌, ◌<◌};

/// The size that a candidate is written in.
#[derive(Clone, Copy, Debug, PartialEq, Eq)]
pub enum Size {
    Either,
    Narrow,
    Wide,
}

/// A candidate: a set's code (0 to 5: Kanji, Alphanumeric, Hiragana, Katakana, JisX0201Katakana, AdditionalSymbols; 7: none,
/// for SP and APR, so that a candidate is six bytes and the search asks of a set's code alone whether there is one), a code in
/// GL form (one byte, or row byte × 256 + cell byte) and a size.
#[derive(Clone, Copy, Debug, PartialEq, Eq)]
pub struct Candidate {
    pub set: u8,
    pub code: u16,
    pub size: Size,
    pub ghost known: { set ≤ 7 },
    pub ghost six: { (set ≡ 7 → ⊥) → set < 6 },
    pub ghost plain: { set ≡ 7 → code < 256 },
    pub ghost row: { code / 256 < 128 },
    pub ghost last: { code % 256 < 128 },
}

impl Candidate {
    ghost use Rattle.coding.specs.Candidates.{code_length};
    ghost use Rattle.encode_candidates.specs.Packed.{cand};

    /// The bytes of its code, which of SP and APR is one.
    pub fn length(self) -> u32
        ensures { result ≡ code_length (cand self) }
    {
        if self.code < 256 { 1 } else { 2 }
    }
}

impl Default for Candidate {
    fn default() -> Self {
        Candidate {
            set: 7,
            code: 0,
            size: Size::Either,
        }
    }
}

/// Candidates in the order of trial, nine at most: the first `count` of `all`.
#[derive(Clone, Copy, Debug, PartialEq, Eq)]
pub struct Cands {
    all: [Candidate; 9],
    count: usize,
    ghost few: { count ≤ 9 },
}

#[tactic(auto, unfolding(crate::specs::Packed::items))]
impl Cands {
    ghost use Rattle.std.specs.Prelude.{[], ◌∷◌, ◌++◌, length};
    ghost use Rattle.encode_candidates.specs.Packed.{items};

    pub(crate) fn new() -> Self
        ensures { items result ≡ [] }
    {
        Cands {
            all: [Candidate::default(); 9],
            count: 0,
        }
    }

    /// One candidate more.
    pub(crate) fn push(&mut self, candidate: Candidate)
        requires { length (items self.old) < 9 }
        ensures { items self.new ≡ items self.old ++ candidate ∷ [] }
    {
        self.all[self.count] = candidate;
        self.count += 1;
    }

    pub fn as_slice(&self) -> &[Candidate]
        ensures value { result.now ≡ items self.now }
        ensures fits { length result.now ≤ 9 }
    {
        &self.all[..self.count]
    }
}
