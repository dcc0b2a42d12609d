// The form of a catalogue's store, request 8: which bytes it holds, asked at the start of each call. Its cost is that of
// reading every byte once and of counting the different keys.
#![tactic(auto)]

pub mod numbers;

ghost use Rattle.std.specs.Prelude.{◌≡◌, ◌≤◌, ◌+◌, ◌*◌, length};
ghost use Rattle.questions.specs.Questions.{all, zero?};
ghost use Rattle.catalogue_form.specs.Form.{formed};
ghost use Rattle.catalogue_form.specs.Promises.{zero_behind, places_hold};

use catalogue_distinct::{ENTRIES, PLACE};

/// The bytes of a store: two counts of four bytes, and the places.
pub const STORE: usize = 266248;

/// The bytes of the two counts.
pub const FRONT: usize = 8;

/// The bytes of a place before its key: four of number, one of length.
pub const HEAD: usize = 5;

/// Whether every byte is zero. There is no early way out, so that many bytes are tested at a time.
fn zero(s: &[u8]) -> bool
    ensures { result ≡ all zero? s.now }
{
    s.iter().fold(0, |bits, &byte| bits | byte) == 0
}

/// Whether a place is zero behind its key.
fn zero_behind(place: &[u8]) -> bool
    requires { length place.now ≡ 260 }
    ensures { result ≡ zero_behind place.now }
{
    let len = place[4] as usize;
    zero(&place[HEAD + len..])
}

/// Whether n places are zero behind their keys, and their numbers rise.
fn rise(places: &[u8], n: usize) -> bool
    requires n_bound { n ≤ 1024 }
    requires n_in_bounds { n * 260 ≤ length places.now }
    ensures { result ≡ places_hold 0 n places.now }
{
    let mut least: u64 = 0;
    for i in 0..n {
        let at = i * PLACE;
        let number = u64::from(numbers::number(places, at));
        if number < least || !zero_behind(&places[at..at + PLACE]) {
            return false;
        }
        least = number + 1;
    }
    true
}

/// Whether a store is of the form: it has as many bytes, not too many entries, by rising number, nothing behind their
/// keys nor behind them, and as many different keys as it says.
pub fn form(store: &[u8]) -> bool
    ensures { result ≡ formed store.now }
{
    if store.len() != STORE {
        return false;
    }
    let n = numbers::number(store, 0) as usize;
    if n > ENTRIES {
        return false;
    }
    if !rise(&store[FRONT..], n) {
        return false;
    }
    if !zero(&store[FRONT + n * PLACE..]) {
        return false;
    }
    numbers::number(store, 4) as usize == catalogue_distinct::distinct(&store[FRONT..], n)
}
