// Places that move, and a place that is written.
ghost use Rattle.std.specs.Prelude.{◌≡◌, ◌≤◌, ◌<◌, ◌+◌, ◌*◌, length, replicate};
ghost use Rattle.std.proofs.lemmas.List.Edits.{sets};
ghost use Rattle.catalogue_form.specs.Form.{place};
ghost use Rattle.catalogue_places.specs.Promises.{opened, closed};

use catalogue_distinct::PLACE;
use catalogue_form::{HEAD, numbers};

/// Moves n - 1 places from `at` on a place further, over the one behind them, and puts the carried one before them.
pub fn make_room(places: &mut [u8], at: usize, n: usize, carried: &[u8])
    requires carried_len { length carried.now ≡ 260 }
    requires n_in_bounds { at + n * 260 ≤ length places.old }
    ensures { places.new ≡ opened places.old at n carried.now }
{
    if n == 0 {
        return;
    }
    let next = at + PLACE;
    places.copy_within(at..at + (n - 1) * PLACE, next);
    places[at..next].copy_from_slice(carried);
}

/// Takes the place behind so many of n away: those behind it move back, and the last one is cleared.
pub fn close_up(places: &mut [u8], n: usize, at: usize)
    requires n_bound { n ≤ 1024 }
    requires at_lt_n { at < n }
    requires n_in_bounds { n * 260 ≤ length places.old }
    ensures { places.new ≡ closed places.old n at }
{
    let last = (n - 1) * PLACE;
    let from = at * PLACE;
    places.copy_within(from + PLACE..last + PLACE, from);
    places[last..last + PLACE].fill(0);
}

/// The place of an entry, written into one that is zero.
pub fn write(zeros: &mut [u8], number: u32, key: &[u8])
    requires zeros_value { zeros.old ≡ replicate 260 0 }
    requires key_len_bound { length key.now ≤ 255 }
    ensures { zeros.new ≡ place (record { number = number; key = key.now }) }
{
    numbers::put_number(zeros, 0, number);
    zeros[4] = key.len() as u8;
    zeros[HEAD..HEAD + key.len()].copy_from_slice(key);
}
