// The calls of bookmarks against a case and its bytes: of a set the number and every number of the store; of a return
// the number, the counts and every element of both buffers, which hold a pattern before the call.
use crate::case::{Case, INPUT, RETURN, SET, part};
use decode_read::Counts;
use questions::refusal::Refusal;
use replay_vectors::buffers::{byte_room, number_room, same_bytes, same_numbers};

/// A place that is named.
fn set(case: Case, cells: &[u16], bytes: &[u8], store: &mut [u32]) -> bool {
    let answer = bookmark::set(
        cells,
        case.initial,
        case.width,
        part(bytes, INPUT, case.before_at),
        case.place,
        case.name,
        store,
    );
    let number = match answer {
        Ok(()) => 0,
        Err(refusal) => refusal.number(),
    };
    (number == case.refused) & same_numbers(store, part(bytes, case.after_at, case.end))
}

/// The number, the place, which is 0, and the counts.
fn same_answer(answer: Result<Counts, Refusal>, case: Case) -> bool {
    match answer {
        Ok(counts) => {
            (case.refused == 0)
                & (counts.text == case.text)
                & (counts.issues == case.issues)
                & (counts.charged == case.charged)
                & (counts.private_use == case.private_use)
        }
        Err(refusal) => {
            (refusal.number() == case.refused)
                & (refusal.place() == 0)
                & (case.text == 0)
                & (case.issues == 0)
                & (case.charged == 0)
                & (case.private_use == 0)
        }
    }
}

/// A return, in the buffers that are lent.
fn return_to(
    case: Case,
    cells: &[u16],
    bytes: &[u8],
    store: &[u32],
    text: &mut [u8],
    issues: &mut [u32],
) -> bool {
    let answer = bookmark::return_to(
        cells,
        case.initial,
        case.width,
        part(bytes, INPUT, case.before_at),
        case.name,
        store,
        text,
        issues,
    );
    same_answer(answer, case)
        & same_bytes(text, part(bytes, case.text_at, case.issues_at))
        & same_numbers(issues, part(bytes, case.issues_at, case.after_at))
}

/// A return, in buffers of the stated lengths.
fn return_in_rooms(case: Case, cells: &[u16], bytes: &[u8], store: &[u32]) -> bool {
    let mut text = byte_room();
    let mut issues = number_room();
    let n = case.text_room;
    let k = case.issue_room;
    if n > 4096 {
        return false;
    }
    if k > 65536 {
        return false;
    }
    return_to(case, cells, bytes, store, &mut text[..n], &mut issues[..k])
}

/// The case's call, with the table and the store that are lent.
fn same_call(case: Case, cells: &[u16], bytes: &[u8], store: &mut [u32]) -> bool {
    let call = case.call;
    match call {
        SET => set(case, cells, bytes, store),
        RETURN => return_in_rooms(case, cells, bytes, store),
        _ => false,
    }
}

/// The same, with the case's table.
pub fn same(case: Case, cells: &[u16], bytes: &[u8], store: &mut [u32]) -> bool {
    let table = case.table;
    match table {
        0 => same_call(case, cells, bytes, store),
        1 => {
            let zeros = [0u16; 8836];
            same_call(case, &zeros, bytes, store)
        }
        2 => {
            let zeros = [0u16; 8835];
            same_call(case, &zeros, bytes, store)
        }
        _ => false,
    }
}
