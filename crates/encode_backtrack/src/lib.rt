// The coding to which the search leads, written from its end to its beginning: encode.rs, from the
// cheapest node of the last layer back to the start.
#![tactic(auto)]

ghost use Rattle.std.specs.Prelude.{◌≡◌, List, [], ◌+◌, ◌*◌, ◌≤◌, length};
ghost use Rattle.std.proofs.lemmas.List.Edits.{sets};
ghost use Rattle.lent.specs.Put.{Put};
ghost use Rattle.coding.specs.Candidates.{Cand};
ghost use Rattle.coding.specs.Search.{begin, run, first_of, back};
ghost use Rattle.encode_candidates.specs.Packed.{cands_of};
ghost use Rattle.encode_states.specs.Written.{written};
ghost use Rattle.encode_layer.specs.Entries.{layer_of};
ghost use Rattle.encode_backtrack.specs.Promises.{Searched};

use encode_candidates::candidate::Candidate;
use encode_tokens::Character;

/// The number of the store at which the node stands to which a coding leads, the coding's length, and the
/// option under which it was searched.
#[derive(Clone, Copy, Debug, PartialEq, Eq)]
pub struct Goal {
    pub node: usize,
    pub length: usize,
    pub annex: bool,
}

/// The place of the layer's first node of a cost; where none has it, how many nodes there are, as in the
/// definition `first_of` of `coding`.
pub fn first_of(store: &[u32], from: usize, count: usize, cost: u32) -> usize
    requires { (from + count) * 4 ≤ length store.now }
    ensures { (cs : List Cand) → result ≡ first_of cost (layer_of cs store.now from count) }
{
    for i in 0..count {
        if store[(from + i) * 4 + 1] == cost {
            return i;
        }
    }
    count
}

/// Writes a character by one of its candidates, as `how` says. Returns the place behind it.
fn put_character(coding: &mut [u8], at: usize, candidates: &[Candidate], how: u32) -> usize
    requires { at ≤ 4294967296 }
    ensures { Put coding.old at (written (cands_of candidates.now) how) coding.new result }
{
    let j = (how % 16) as usize;
    if j >= candidates.len() {
        return at;
    }
    let candidate = candidates[j];
    if candidate.set == 7 {
        return encode_writing::put_plain(coding, at, candidate.code as u8, how);
    }
    encode_writing::put_graphic(coding, at, candidate.set as u32, candidate.code, how)
}

/// The bytes that it takes: it is written where nothing has room.
fn character_length(candidates: &[Candidate], how: u32) -> usize
    ensures { result ≡ length (written (cands_of candidates.now) how) }
{
    let mut nowhere = [0u8; 0];
    put_character(&mut nowhere, 0, candidates, how)
}

/// Writes the coding of the characters that leads to a node of the newest layer, its last character
/// first. A node's one number says how its character was written, and how far before it the node stands
/// from which it was reached.
pub fn write_back(characters: &[Character], goal: Goal, store: &[u32], coding: &mut [u8])
    requires { Searched goal.annex characters.now store.now goal.node goal.length }
    ensures { (f : Searched goal.annex characters.now store.now goal.node goal.length) →
        coding.new ≡ sets coding.old 0 (back (run f.css (begin f.initial)).layers f.place []) }
{
    let mut p = goal.node;
    let mut to = goal.length;
    for k in (0..characters.len()).rev() {
        let number = store[p];
        let how = number / 131072;
        let x = characters[k];
        let candidates = encode_candidates::candidates(x.char, x.kanji, x.symbol, goal.annex);
        let choices = candidates.as_slice();
        to -= character_length(choices, how);
        put_character(&mut *coding, to, choices, how);
        p -= (number % 131072) as usize;
    }
}
