// An entry put into its place in a catalogue's store, or taken away, with the two counts: request 8.
#![tactic(auto)]

ghost use Rattle.std.specs.Prelude.{◌≡◌, not, ◌++◌, ◌≤◌, ◌<◌, ◌*◌, eqb, length, drop};
ghost use Rattle.catalogue_distinct.specs.Distinct.{among};
ghost use Rattle.catalogue_form.specs.Form.{big_endian, keys, bytes, entry_of, entries_of, entries};
ghost use Rattle.catalogue_form.specs.Entries.{having};
ghost use Rattle.catalogue_changes.specs.Promises.{Holds, put_at, taken_at};

use catalogue_distinct::PLACE;
use catalogue_form::{FRONT, HEAD, numbers};
use catalogue_places::moving;

/// Whether none of n entries has a key.
fn absent(places: &[u8], n: usize, key: &[u8]) -> bool
    requires n_bound { n ≤ 1024 }
    requires n_in_bounds { n * 260 ≤ length places.now }
    ensures { result ≡ not (among key.now (keys (entries_of n places.now))) }
{
    let held = catalogue_places::having(places, n, key);
    held.entries == 0
}

/// Whether no other of n entries has the key of this one.
fn alone(places: &[u8], n: usize, at: usize) -> bool
    requires n_bound { n ≤ 1024 }
    requires at_lt_n { at < n }
    requires n_in_bounds { n * 260 ≤ length places.now }
    ensures { result ≡ eqb (length (having (entry_of (drop (at * 260) places.now)).key (entries_of n places.now))) 1 }
{
    let from = at * PLACE;
    let len = places[from + 4] as usize;
    let key = from + HEAD;
    let held = catalogue_places::having(places, n, &places[key..key + len]);
    held.entries == 1
}

/// The two counts.
fn counts(front: &mut [u8], entries: u32, distinct: u32)
    requires { length front.old ≡ 8 }
    ensures { front.new ≡ big_endian entries ++ big_endian distinct }
{
    numbers::put_number(front, 0, entries);
    numbers::put_number(front, 4, distinct);
}

/// Puts an entry behind so many of n.
#[tactic(auto, using(crate::proofs::Stores::long))]
pub fn insert(store: &mut [u8], n: usize, at: usize, number: u32, key: &[u8])
    requires holds { Holds store.old n }
    requires n_bound { n < 1024 }
    requires at_le_n { at ≤ n }
    requires key_len_bound { length key.now ≤ 255 }
    ensures { store.new ≡ bytes (put_at at (record { number = number; key = key.now }) (entries store.old)) }
{
    let distinct = numbers::number(store, 4) + u32::from(absent(&store[FRONT..], n, key));
    let mut place = [0u8; PLACE];
    moving::write(&mut place, number, key);
    moving::make_room(&mut store[FRONT..], at * PLACE, n - at + 1, &place);
    counts(&mut store[..FRONT], n as u32 + 1, distinct);
}

/// Takes the entry behind so many of n away.
#[tactic(auto, using(crate::proofs::Stores::long))]
pub fn delete(store: &mut [u8], n: usize, at: usize)
    requires holds { Holds store.old n }
    requires at_lt_n { at < n }
    ensures { store.new ≡ bytes (taken_at at (entries store.old)) }
{
    let distinct = numbers::number(store, 4) - u32::from(alone(&store[FRONT..], n, at));
    moving::close_up(&mut store[FRONT..], n, at);
    counts(&mut store[..FRONT], n as u32 - 1, distinct);
}
