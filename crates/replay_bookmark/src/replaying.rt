// `bookmark.bin` against the calls of bookmarks, one after the other in one store.
ghost use Rattle.std.specs.Prelude.{◌≤◌, length};

use crate::calls;
use crate::case::{Case, case_at, part};
use replay_vectors::compared::Compared;
use replay_vectors::numbers::{count, number};
use replay_vectors::tally::Tally;

/// Fills the store where the case has it in the file: its numbers, and zeros behind them.
fn load(case: Case, front: &[u8], store: &mut [u32]) {
    if case.loaded == 0 {
        return;
    }
    let mut i = 0;
    while i < store.len() {
        store[i] = number(front, 4 * i);
        i += 1;
    }
}

/// One call, in a store of the stated length.
fn same(case: Case, cells: &[u16], bytes: &[u8], store: &mut [u32]) -> bool {
    let n = case.store;
    if n > store.len() {
        return false;
    }
    load(case, part(bytes, case.before_at, case.text_at), store);
    calls::same(case, cells, bytes, &mut store[..n])
}

/// The case at a place.
fn compare(file: &[u8], at: usize, cells: &[u16], store: &mut [u32]) -> Compared
    requires { at ≤ length file.now }
    ensures { result.next ≤ length file.now }
{
    let case = case_at(&file[at..]);
    let n = case.end;
    if n > file.len() - at {
        return Compared {
            next: 0,
            same: false,
        };
    }
    let next = at + n;
    Compared {
        next,
        same: same(case, cells, &file[at..next], store),
    }
}

/// All cases, in a store that has a number more than one of bookmarks. A file that ends early or late counts as one
/// more that differs.
pub fn replay(file: &[u8], cells: &[u16]) -> Tally {
    let cases = count(file, 0);
    let mut tally = Tally::none();
    let mut at = 4;
    let mut store = [0u32; 4593];
    if file.len() < at {
        return Tally::one(false);
    }
    for _ in 0..cases {
        let compared = compare(file, at, cells, &mut store);
        tally = tally.plus(Tally::one(compared.same));
        at = compared.next;
        if at == 0 {
            break;
        }
    }
    if at != file.len() {
        return tally.plus(Tally::one(false));
    }
    tally
}
