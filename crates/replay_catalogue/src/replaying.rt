// `catalogue.bin` against the calls of the catalogue, one after the other in one store, of which every byte is looked at
// after each call.
ghost use Rattle.std.specs.Prelude.{◌≤◌, length};

use crate::calls;
use crate::case::{Case, case_at, key_bytes};
use replay_vectors::buffers::same_bytes;
use replay_vectors::compared::Compared;
use replay_vectors::files::byte;
use replay_vectors::numbers::count;
use replay_vectors::tally::Tally;

/// Fills the store where the case has it in the file: its bytes, and zeros behind them.
fn load(case: Case, store: &mut [u8], front: &[u8]) {
    if case.loaded == 0 {
        return;
    }
    let mut i = 0;
    while i < store.len() {
        store[i] = byte(front, i) as u8;
        i += 1;
    }
}

/// One call, in the store that is lent.
fn same(
    case: Case,
    cells: &[u16],
    input: &[u8],
    before: &[u8],
    key: &[u8],
    after: &[u8],
    store: &mut [u8],
) -> bool {
    load(case, store, before);
    calls::same(case, cells, input, key, store) & same_bytes(store, after)
}

/// One call, in a store of the stated length.
fn same_in_store(
    case: Case,
    cells: &[u16],
    input: &[u8],
    before: &[u8],
    key: &[u8],
    after: &[u8],
    store: &mut [u8],
) -> bool {
    let n = case.store;
    if n > store.len() {
        return false;
    }
    same(case, cells, input, before, key, after, &mut store[..n])
}

/// The case at a place.
fn compare(file: &[u8], at: usize, cells: &[u16], store: &mut [u8]) -> Compared
    requires { at ≤ length file.now }
    ensures { result.next ≤ length file.now }
{
    let case = case_at(&file[at..]);
    let input = at + 60;
    let before = input + case.input;
    let key = before + case.before;
    let after = key + key_bytes(case);
    let next = after + case.after;
    if next > file.len() {
        return Compared {
            next: 0,
            same: false,
        };
    }
    Compared {
        next,
        same: same_in_store(
            case,
            cells,
            &file[input..before],
            &file[before..key],
            &file[key..after],
            &file[after..next],
            store,
        ),
    }
}

/// All cases. A file that ends early or late counts as one more that differs.
pub fn replay(file: &[u8], cells: &[u16], store: &mut [u8]) -> Tally {
    let cases = count(file, 0);
    let mut tally = Tally::none();
    let mut at = 4;
    if file.len() < at {
        return Tally::one(false);
    }
    for _ in 0..cases {
        let compared = compare(file, at, cells, store);
        tally = tally.plus(Tally::one(compared.same));
        at = compared.next;
        if at == 0 {
            return tally.plus(Tally::one(false));
        }
    }
    if at != file.len() {
        return tally.plus(Tally::one(false));
    }
    tally
}
