// The coding call: the questions in order, and every element of buffer and store.
ghost use Rattle.std.specs.Prelude.{◌≡◌, []};
ghost use lib.ListN.{length};
ghost use Rattle.questions.specs.Questions.{first_refusal};
ghost use Rattle.coding.specs.Search.{Coded};
ghost use Rattle.coding.specs.Call.{question8};
ghost use Rattle.encode_backtrack.specs.Promises.{Searched};
ghost use Rattle.encode_find.specs.Plans.{Leading};
ghost use Rattle.encode.specs.Answers.{Zeroed, Refuses, Answers, lent, Answered};

use encode_backtrack::Goal;
use encode_find::{Options, Target};
use encode_tokens::Character;
use questions::refusal::Refusal;

/// A coding: its length and its gap.
#[derive(Clone, Copy, Debug, PartialEq, Eq)]
pub struct Coding {
    pub length: usize,
    pub gap: usize,
}

/// Fills buffer and store with zero.
fn zero(store: &mut [u32], coding: &mut [u8])
    ensures { Zeroed store.old coding.old store.new coding.new }
{
    questions::clear(store, 0);
    questions::clear(coding, 0);
}

/// Refuses.
fn refuse(refusal: Refusal, store: &mut [u32], coding: &mut [u8]) -> Result<Coding, Refusal>
    ensures { Refuses refusal store.old coding.old result store.new coding.new }
{
    zero(store, coding);
    Err(refusal)
}

/// The coding of no character.
fn nothing(store: &mut [u32], coding: &mut [u8]) -> Result<Coding, Refusal>
    ensures { (k : Coded) → k.out ≡ [] → k.gap ≡ 0 → Answers (question8 (length coding.old) k) k store.old coding.old result
        store.new coding.new }
{
    zero(store, coding);
    Ok(Coding { length: 0, gap: 0 })
}

/// Question 8, then the coding, with zeros behind it, from the layers that the search left in the store.
fn write(
    characters: &[Character],
    annex: bool,
    target: Target,
    layers: &mut [u32],
    coding: &mut [u8],
) -> Result<Coding, Refusal>
    requires { Searched annex characters.now layers.old target.node target.length }
    ensures { (k : Coded) → Leading annex k target layers.old characters.now →
        Answers (question8 (lib.ListN.length coding.old) k) k layers.old coding.old result layers.new coding.new }
{
    let node = target.node;
    let length = target.length;
    let gap = target.gap;
    if coding.len() < length {
        return refuse(Refusal::BufferTooSmall, layers, coding);
    }
    encode_backtrack::write_back(
        characters,
        Goal {
            node,
            length,
            annex,
        },
        &*layers,
        &mut *coding,
    );
    questions::clear(coding, length);
    questions::clear(layers, 0);
    Ok(Coding { length, gap })
}

/// Codes where questions 1 to 3 were put and passed.
fn encode_checked(
    cells: &[u16],
    initial: u32,
    width: u32,
    text: &[u8],
    store: &mut [u32],
    coding: &mut [u8],
) -> Result<Coding, Refusal>
    requires { first_refusal cells.now initial width 7281 (length text.now) ≡ 0 }
    ensures { Answered (lent cells.now initial width text.now store.old coding.old) result store.new coding.new }
{
    let mut characters = [Character::default(); 7281];
    match encode_find::find(
        cells,
        Options { initial, width },
        text,
        &mut *store,
        &mut characters,
    ) {
        Ok(found) => match found {
            None => nothing(store, coding),
            Some(target) => write(
                &characters[..target.count],
                width == 1,
                target,
                store,
                coding,
            ),
        },
        Err(refusal) => refuse(refusal, store, coding),
    }
}

/// Codes a text: the coding's length and gap, or the first question that fails. The options are as wide as a C caller's:
/// question 2 asks them of `arib_encode` too.
pub fn encode_with(
    cells: &[u16],
    initial: u32,
    width: u32,
    text: &[u8],
    store: &mut [u32],
    coding: &mut [u8],
) -> Result<Coding, Refusal>
    ensures { Answered (lent cells.now initial width text.now store.old coding.old) result store.new coding.new }
{
    match questions::first(cells, initial, width, questions::ENCODE_LIMIT, text.len()) {
        Ok(()) => encode_checked(cells, initial, width, text, store, coding),
        Err(refusal) => refuse(refusal, store, coding),
    }
}
