// The calls of the catalogue against a case: the number and both counts, and of an add every byte of the key's buffer,
// which holds a pattern before the call.
use crate::case::{ADD, Case, FIND, REMOVE};
use key::Keyed;
use questions::refusal::Refusal;
use replay_vectors::buffers::{byte_room, same_bytes};

/// The number, the place, which is 0, and the two counts: both are 0 in a refusal.
fn same_refusal(refusal: Refusal, case: Case) -> bool {
    (refusal.number() == case.refused)
        & (refusal.place() == 0)
        & (case.first == 0)
        & (case.second == 0)
}

/// The key's length and the charge.
fn same_key(answer: Result<Keyed, Refusal>, case: Case) -> bool {
    match answer {
        Ok(key) => (case.refused == 0) & (key.len == case.first) & (key.charged == case.second),
        Err(refusal) => same_refusal(refusal, case),
    }
}

/// An add, in the key's buffer that is lent.
fn add(
    case: Case,
    cells: &[u16],
    title: &[u8],
    key: &[u8],
    store: &mut [u8],
    buffer: &mut [u8],
) -> bool {
    let answer = catalogue::add(
        cells,
        case.initial,
        case.width,
        title,
        case.number,
        store,
        buffer,
    );
    same_key(answer, case) & same_bytes(buffer, key)
}

/// An add, in a key's buffer of the stated length.
fn add_in_room(case: Case, cells: &[u16], title: &[u8], key: &[u8], store: &mut [u8]) -> bool {
    let mut buffer = byte_room();
    let n = case.room;
    if n > 4096 {
        return false;
    }
    add(case, cells, title, key, store, &mut buffer[..n])
}

/// An add, with the case's table.
fn add_by_table(case: Case, cells: &[u16], title: &[u8], key: &[u8], store: &mut [u8]) -> bool {
    if case.table == 0 {
        return add_in_room(case, cells, title, key, store);
    }
    let zeros = [0u16; 8836];
    add_in_room(case, &zeros, title, key, store)
}

/// A removal.
fn remove(case: Case, store: &mut [u8]) -> bool {
    match catalogue::remove(store, case.number) {
        Ok(()) => (case.refused == 0) & (case.first == 0) & (case.second == 0),
        Err(refusal) => same_refusal(refusal, case),
    }
}

/// A key that is sought.
fn find(case: Case, store: &[u8], key: &[u8]) -> bool {
    match catalogue::find(store, key) {
        Ok(found) => {
            (case.refused == 0)
                & (found.entries == case.first)
                & (found.number as usize == case.second)
        }
        Err(refusal) => same_refusal(refusal, case),
    }
}

/// The case's call, in the store that is lent.
pub fn same(case: Case, cells: &[u16], input: &[u8], key: &[u8], store: &mut [u8]) -> bool {
    let call = case.call;
    match call {
        ADD => add_by_table(case, cells, input, key, store),
        REMOVE => remove(case, store),
        FIND => find(case, store, input),
        _ => false,
    }
}
