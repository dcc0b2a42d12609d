// The places of a catalogue's store: where a number stands, which have a key, and how places move when one is put
// between them or taken away. Request 8.
#![tactic(auto)]

pub mod moving;

ghost use Rattle.std.specs.Prelude.{◌≡◌, ◌≤◌, ◌*◌, length, drop};
ghost use Rattle.catalogue_distinct.specs.Distinct.{same};
ghost use Rattle.catalogue_form.specs.Form.{entry_of, entries_of};
ghost use Rattle.catalogue_form.specs.Entries.{having};
ghost use Rattle.catalogue_places.specs.Promises.{before, headed, first_number};

use catalogue_distinct::PLACE;
use catalogue_form::{HEAD, numbers};

/// The entries that have a key: how many, and the first one's number, 0 where there is none: `arib_catalogue_find` answers
/// both as they stand here.
#[derive(Clone, Copy)]
pub struct Holders {
    pub entries: usize,
    pub number: u32,
}

/// How many of n entries stand before the place of a number.
pub fn position(places: &[u8], n: usize, number: u32) -> usize
    requires n_bound { n ≤ 1024 }
    requires n_in_bounds { n * 260 ≤ length places.now }
    ensures { result ≡ before number (entries_of n places.now) }
{
    for i in 0..n {
        if numbers::number(places, i * PLACE) >= number {
            return i;
        }
    }
    n
}

/// Whether an entry with this number stands behind so many of n.
pub fn stands(places: &[u8], n: usize, number: u32, at: usize) -> bool
    requires n_bound { n ≤ 1024 }
    requires n_in_bounds { n * 260 ≤ length places.now }
    ensures { result ≡ headed number (drop at (entries_of n places.now)) }
{
    at < n && numbers::number(places, at * PLACE) == number
}

/// Whether the entry of a place has a key.
fn has(place: &[u8], key: &[u8]) -> bool
    requires { length place.now ≡ 260 }
    ensures { result ≡ same key.now (entry_of place.now).key }
{
    let len = place[4] as usize;
    key == &place[HEAD..HEAD + len]
}

/// The entries, of n, that have a key. They are looked at from the last on, so that the first one's number stays.
pub fn having(places: &[u8], n: usize, key: &[u8]) -> Holders
    requires n_bound { n ≤ 1024 }
    requires n_in_bounds { n * 260 ≤ length places.now }
    ensures entries_value { result.entries ≡ length (having key.now (entries_of n places.now)) }
    ensures number_value { result.number ≡ first_number (having key.now (entries_of n places.now)) }
{
    let mut entries = 0;
    let mut number = 0;
    for i in (0..n).rev() {
        let at = i * PLACE;
        if has(&places[at..at + PLACE], key) {
            entries += 1;
            number = numbers::number(places, at);
        }
    }
    Holders { entries, number }
}
