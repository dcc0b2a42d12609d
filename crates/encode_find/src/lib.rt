// The search for a coding: questions 4 to 7, the coding's length and its gap. No byte is written yet.
#![tactic(auto)]

ghost use Rattle.std.specs.Prelude.{◌≡◌, ℕ, ◌≤◌, length};
ghost use Rattle.coding.specs.Candidates.{candidates_of};
ghost use Rattle.coding.specs.Search.{code, gap_of};
ghost use Rattle.coding.specs.Store.{needs};
ghost use Rattle.encode_tokens.specs.Promises.{ArraysFit};
ghost use Rattle.encode_search.specs.Layers.{Few};
ghost use Rattle.encode_find.specs.Plans.{asked, Characters, Planned, Led};

use encode_search::Task;
use encode_tokens::Character;
use questions::refusal::Refusal;

/// The two options of a call.
#[derive(Clone, Copy, Debug, PartialEq, Eq)]
pub struct Options {
    pub initial: u32,
    pub width: u32,
}

/// Where the coding is: how many characters there are, the number of the store at which the node
/// stands to which it leads, its length and its gap.
#[derive(Clone, Copy, Debug, PartialEq, Eq)]
pub struct Target {
    pub count: usize,
    pub node: usize,
    pub length: usize,
    pub gap: usize,
}

/// The length less the floor, or 0 where that is negative or there is none.
fn gap_of(length: usize, floor: u32) -> usize
    ensures { result ≡ gap_of length floor }
{
    if floor == 0 {
        return 0;
    }
    let least = (floor - 1) as usize;
    if least < length {
        return length - least;
    }
    0
}

/// Searches, question 7. No target where there is no character.
fn lead(characters: &[Character], task: Task, store: &mut [u32]) -> Result<Option<Target>, Refusal>
    requires { Few characters.now task.rest }
    ensures { (t : Characters task.annex characters.now task.rest) →
        Led task.annex (code (candidates_of t.cells task.annex t.chars) task.initial) (needs (candidates_of t.cells task.annex t.chars) task.initial) result
        store.new characters.now }
{
    if characters.is_empty() {
        return Ok(None);
    }
    let Some(last) = encode_search::search(&mut *store, characters, task) else {
        return Err(Refusal::StoreTooSmall);
    };
    let from = last.from;
    let count = last.count;
    let best = encode_layer::least(&store[from..], 0, count);
    let place = encode_backtrack::first_of(&store[from..], 0, count, best);
    encode_layer::squeeze(&mut store[from..], count, last.before);
    let length = best as usize;
    Ok(Some(Target {
        count: characters.len(),
        node: from + place,
        length,
        gap: gap_of(length, last.floor),
    }))
}

/// Puts questions 4 to 7 to a text of at most 7,281 bytes: the first that is answered no, or where the
/// coding is, none where there is no character. The array then begins with the characters in the order in
/// which they are coded, and the store holds what was searched.
pub fn find(
    cells: &[u16],
    options: Options,
    text: &[u8],
    store: &mut [u32],
    characters: &mut [Character],
) -> Result<Option<Target>, Refusal>
    requires { (length text.now ≤ 7281) × ArraysFit text.now characters.old }
    ensures { (room : ℕ) → Planned (asked cells.now options.initial options.width text.now store.old room) result store.new characters.new }
{
    let annex = options.width == 1;
    let ordered = encode_tokens::tokenise(cells, annex, text, &mut *characters)?;
    let task = Task {
        rest: ordered.rest,
        annex,
        initial: options.initial,
    };
    lead(&characters[..ordered.count], task, store)
}
