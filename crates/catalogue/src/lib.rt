// A live title catalogue, request 8: titles are added with their keys, removed by their numbers, and found by a key. Each
// call asks first whether the lent store is of the form; a refusal leaves it as it was.
#![tactic(auto)]

ghost use Rattle.std.specs.Prelude.{◌≡◌, true, ◌≤◌, length, take, []};
ghost use Rattle.questions.specs.Refusal.{refused, refused_at};
ghost use Rattle.questions.specs.Buffer.{padded};
ghost use Rattle.catalogue_form.specs.Form.{formed};
ghost use Rattle.key.specs.Promises as keys;
ghost use Rattle.catalogue.specs.Catalogue.{entry_refusal};
ghost use Rattle.catalogue.specs.Promises.{lent, Added, Entered, Removed, Finds};

use catalogue_distinct::ENTRIES;
use catalogue_form::{FRONT, numbers};
use key::Keyed;
use questions::refusal::Refusal;

/// The bytes that a key may have in a catalogue.
const KEY: usize = 255;

/// What finding a key answers: the entries that have the key, and the smallest of their numbers.
#[derive(Clone, Copy, Debug, PartialEq, Eq)]
pub struct Found {
    pub entries: usize,
    pub number: u32,
}

/// A refused add: the key's buffer is cleared.
fn refuse(refusal: Refusal, key: &mut [u8]) -> Result<Keyed, Refusal>
    ensures value { result ≡ Err refusal }
    ensures key_after { key.new ≡ padded (length key.old) [] }
{
    questions::clear(key, 0);
    Err(refusal)
}

/// With what an entry is refused: by whether its number is present, by the bytes of its key, and by how many entries there
/// are.
fn entry_refusal(present: bool, len: usize, n: usize) -> Result<(), Refusal>
    ensures number { refused result ≡ entry_refusal present len n }
    ensures place { refused_at result ≡ 0 }
{
    if present {
        return Err(Refusal::CatalogueMismatch);
    }
    if len > KEY {
        return Err(Refusal::KeyTooLong);
    }
    if n >= ENTRIES {
        return Err(Refusal::CatalogueFull);
    }
    Ok(())
}

/// Enters the title whose key stands in the front of its buffer, unless it is refused.
fn enter(keyed: Keyed, number: u32, store: &mut [u8], key: &mut [u8]) -> Result<Keyed, Refusal>
    requires store_value { formed store.old ≡ true }
    requires len_in_bounds { keyed.len ≤ length key.old }
    ensures { Entered (record { number = number; key = take keyed.len key.old }) keyed store.old key.old result
        store.new key.new }
{
    let n = numbers::number(store, 0) as usize;
    let at = catalogue_places::position(&store[FRONT..], n, number);
    let present = catalogue_places::stands(&store[FRONT..], n, number, at);
    match entry_refusal(present, keyed.len, n) {
        Ok(()) => {
            catalogue_changes::insert(store, n, at, number, &key[..keyed.len]);
            Ok(keyed)
        }
        Err(refusal) => refuse(refusal, key),
    }
}

/// Adds a title, with a number of the caller's own; its key is left in the buffer.
pub fn add(
    cells: &[u16],
    initial: u32,
    width: u32,
    title: &[u8],
    number: u32,
    store: &mut [u8],
    key: &mut [u8],
) -> Result<Keyed, Refusal>
    ensures { Added (lent (keys.lent cells.now initial width title.now key.old) number store.old) result
        store.new key.new }
{
    if !catalogue_form::form(store) {
        return refuse(Refusal::CatalogueMismatch, key);
    }
    let keyed = key::key(cells, initial, width, title, key)?;
    enter(keyed, number, store, key)
}

/// Removes the entry of a number.
pub fn remove(store: &mut [u8], number: u32) -> Result<(), Refusal>
    ensures { Removed store.old number result store.new }
{
    if !catalogue_form::form(store) {
        return Err(Refusal::CatalogueMismatch);
    }
    let n = numbers::number(store, 0) as usize;
    let at = catalogue_places::position(&store[FRONT..], n, number);
    if !catalogue_places::stands(&store[FRONT..], n, number, at) {
        return Err(Refusal::CatalogueMismatch);
    }
    catalogue_changes::delete(store, n, at);
    Ok(())
}

/// Finds the entries that have a key.
pub fn find(store: &[u8], key: &[u8]) -> Result<Found, Refusal>
    ensures { Finds store.now key.now result }
{
    if !catalogue_form::form(store) {
        return Err(Refusal::CatalogueMismatch);
    }
    let n = numbers::number(store, 0) as usize;
    let held = catalogue_places::having(&store[FRONT..], n, key);
    Ok(Found {
        entries: held.entries,
        number: held.number,
    })
}
