// `encode.bin` against `encode_with`: the number, the place, the length, the gap, and every element
// of buffer and store, which hold a pattern before the call.
ghost use Rattle.std.specs.Prelude.{◌≤◌, length};

use crate::coding_case::{CodingCase, case_at};
use encode::call::Coding;
use questions::refusal::Refusal;
use replay_vectors::buffers::{byte_room, number_room, same_bytes, same_numbers};
use replay_vectors::compared::Compared;
use replay_vectors::numbers::count;
use replay_vectors::tally::Tally;

/// The number, the place, the length and the gap.
fn same_answer(answer: Result<Coding, Refusal>, case: CodingCase) -> bool {
    match answer {
        Ok(coding) => {
            (case.number == 0)
                & (case.place == 0)
                & (coding.length == case.coding)
                & (coding.gap == case.gap)
        }
        Err(refusal) => {
            (refusal.number() == case.number)
                & (refusal.place() == case.place)
                & (case.coding == 0)
                & (case.gap == 0)
        }
    }
}

/// One call, in the store and the buffer that are lent. The store is zero afterwards.
fn same(
    case: CodingCase,
    cells: &[u16],
    text: &[u8],
    coding: &[u8],
    store: &mut [u32],
    bytes: &mut [u8],
) -> bool {
    let answer = encode::call::encode_with(cells, case.initial, case.width, text, store, bytes);
    same_answer(answer, case) & same_bytes(bytes, coding) & same_numbers(store, b"")
}

/// One call, in store and buffer of the stated lengths.
fn same_in_rooms(case: CodingCase, cells: &[u16], text: &[u8], coding: &[u8]) -> bool {
    let mut store = number_room();
    let mut bytes = byte_room();
    let k = case.store_room;
    let n = case.coding_room;
    if k > 65536 {
        return false;
    }
    if n > 4096 {
        return false;
    }
    same(case, cells, text, coding, &mut store[..k], &mut bytes[..n])
}

/// The case at a place.
fn compare(file: &[u8], at: usize, cells: &[u16]) -> Compared
    requires { at ≤ length file.now }
    ensures { result.next ≤ length file.now }
{
    let case = case_at(&file[at..]);
    let zeros = [0u16; 8836];
    let text = at + 40;
    let coding = text + case.text;
    let next = coding + case.coding;
    if next > file.len() {
        return Compared {
            next: 0,
            same: false,
        };
    }
    if case.table == 0 {
        return Compared {
            next,
            same: same_in_rooms(case, cells, &file[text..coding], &file[coding..next]),
        };
    }
    Compared {
        next,
        same: same_in_rooms(case, &zeros, &file[text..coding], &file[coding..next]),
    }
}

/// All cases. A file that ends early or late counts as one more that differs.
pub fn replay(file: &[u8], cells: &[u16]) -> Tally {
    let cases = count(file, 0);
    let mut tally = Tally::none();
    let mut at = 4;
    if file.len() < at {
        return Tally::one(false);
    }
    for _ in 0..cases {
        let compared = compare(file, at, cells);
        tally = tally.plus(Tally::one(compared.same));
        at = compared.next;
        if at == 0 {
            break;
        }
    }
    if at != file.len() {
        return tally.plus(Tally::one(false));
    }
    tally
}
