// The answers of `control` and `sets`, for number i of each part. Where there is none, 255.
use crate::numbers::{low, string, wide};
use sets::{CharSize, GraphicSet, InitialState, Shift};

/// Codes 00 to FF.
pub fn fixed_params(i: usize) -> usize {
    control::fixed_params(low(i)).unwrap_or(255)
}

/// Codes 00 to FF, six numbers each: the name, a string with room for five.
pub fn name(i: usize) -> usize {
    string(control::name(low(i / 6)).as_bytes(), i % 6)
}

/// Sets 0 to 31, 27 numbers each: bytes a character, final byte, whether in the DRCS form, then the designations to G0,
/// G1, G2 and G3, strings with room for five.
pub fn graphic_sets(i: usize) -> usize {
    let set = GraphicSet::from_number(low(i / 27));
    let k = i % 27;
    if k == 0 {
        return set.bytes_per_char();
    }
    if k == 1 {
        return usize::from(set.final_byte());
    }
    if k == 2 {
        return usize::from(set.is_drcs_form());
    }
    let sequence = set.designation(low((k - 3) / 6));
    string(sequence.as_slice(), (k - 3) % 6)
}

/// Final bytes 00 to FF in four forms: one-byte plain, one-byte DRCS, two-byte plain, two-byte DRCS.
pub fn from_designation(i: usize) -> usize {
    match GraphicSet::from_designation(512 <= i, i / 256 % 2 == 1, low(i)) {
        Some(set) => wide(set.number()),
        None => 255,
    }
}

/// The shifts in the file's order.
fn shift(n: usize) -> Shift {
    match n {
        0 => Shift::Ls0,
        1 => Shift::Ls1,
        2 => Shift::Ls2,
        3 => Shift::Ls3,
        4 => Shift::Ls1r,
        5 => Shift::Ls2r,
        6 => Shift::Ls3r,
        7 => Shift::Ss2,
        _ => Shift::Ss3,
    }
}

/// Nine shifts, four numbers each: the bytes, a string with room for two, then the element.
pub fn shifts(i: usize) -> usize {
    let shift = shift(i / 4);
    let k = i % 4;
    if k == 3 {
        return usize::from(shift.element());
    }
    string(shift.bytes(), k)
}

/// The sizes in the file's order.
fn size(i: usize) -> CharSize {
    match i {
        0 => CharSize::Small,
        1 => CharSize::Middle,
        2 => CharSize::Normal,
        _ => CharSize::Szx(low(i - 3)),
    }
}

/// Small, middle, normal, then SZX 00 to FF.
pub fn is_narrow(i: usize) -> usize {
    usize::from(size(i).is_narrow())
}

/// The initial states in the file's order.
fn state(n: usize) -> InitialState {
    if n == 0 {
        InitialState::Si
    } else {
        InitialState::Caption
    }
}

/// SI and captions, six numbers each: the sets of G0 to G3, then the elements in GL and GR.
pub fn initial_states(i: usize) -> usize {
    let state = state(i / 6);
    let k = i % 6;
    if k < 4 {
        let designations = state.designations();
        let set = designations[k];
        return wide(set.number());
    }
    let invocations = state.invocations();
    if k == 4 {
        return usize::from(invocations.gl);
    }
    usize::from(invocations.gr)
}
