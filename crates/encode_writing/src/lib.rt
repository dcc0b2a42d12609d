// The bytes of a character, written as the search chose: encode.rs, what `push` is given. Sets, sizes and invocations come
// as the numbers that the search's lent store packs into one (`how`), so they are told apart by them here and nowhere else.
#![tactic(auto)]

ghost use Rattle.std.specs.Prelude.{◌≡◌, cond, List, [], ◌∷◌, map, ℕ, ◌+◌, ◌/◌, ◌%◌, ◌≤◌, ◌<◌, eqb, length};
ghost use Rattle.lent.specs.Put.{Put};
ghost use Rattle.sets.specs.Sets.{set_number, shift_bytes, designation};
ghost use Rattle.coding.specs.Candidates.{Size, graphic, plain};
ghost use Rattle.encode_states.specs.Packed.{set_of};
ghost use Rattle.encode_states.specs.Written.{size_control, invocation, half, written_by};
ghost use Rattle.encode_candidates.specs.Packed.{code_of};

use control::{MSZ, NSZ};
use sets::{GraphicSet, Shift};

/// Writes a byte, where it fits. Returns the place behind it, as all that follow do.
fn put(coding: &mut [u8], at: usize, x: u8) -> usize
    requires { at ≤ 4294967360 }
    ensures { Put coding.old at (x ∷ []) coding.new result }
{
    let to = at + 1;
    if at < coding.len() {
        coding[at] = x;
        return to;
    }
    to
}

/// Writes a sequence.
fn put_sequence(coding: &mut [u8], at: usize, q: &[u8]) -> usize
    requires { (at ≤ 4294967340) × (length q.now ≤ 5) }
    ensures { Put coding.old at q.now coding.new result }
{
    let mut to = at;
    for x in q {
        to = put(&mut *coding, to, *x);
    }
    to
}

/// Writes a size control: none (0), MSZ (1), NSZ (2).
fn put_size(coding: &mut [u8], at: usize, z: u32) -> usize
    requires { at ≤ 4294967320 }
    ensures { Put coding.old at (size_control z) coding.new result }
{
    match z {
        0 => at,
        1 => put(coding, at, MSZ),
        _ => put(coding, at, NSZ),
    }
}

/// The set of a code of three bits.
fn set_of(x: u32) -> GraphicSet
    requires { x < 7 }
    ensures { set_number result ≡ set_of x }
{
    match x {
        0 => GraphicSet::Kanji,
        1 => GraphicSet::Alphanumeric,
        2 => GraphicSet::Hiragana,
        3 => GraphicSet::Katakana,
        4 => GraphicSet::JisX0201Katakana,
        5 => GraphicSet::AdditionalSymbols,
        _ => GraphicSet::Macro,
    }
}

/// Writes the designation of a set to the code element e, where d says so.
fn put_designation(coding: &mut [u8], at: usize, x: u32, e: u8, d: u32) -> usize
    requires { (at ≤ 4294967330) × (x < 7) × (e < 4) }
    ensures { Put coding.old at (cond (eqb d 1) (designation (set_of x) e) []) coding.new result }
{
    if d == 1 {
        let sequence = set_of(x).designation(e);
        return put_sequence(coding, at, sequence.as_slice());
    }
    at
}

/// The shift by which the code element e is invoked: a locking shift to GL (2), to GR (3), a single
/// shift (4).
fn shift(v: u32, e: u32) -> Shift
    requires { (2 ≤ v) × (e < 4) }
    ensures { shift_bytes result ≡ invocation v e }
{
    match v {
        2 => lock_gl(e),
        3 => lock_gr(e),
        _ => single(e),
    }
}

fn lock_gl(e: u32) -> Shift
    requires { e < 4 }
    ensures { shift_bytes result ≡ invocation 2 e }
{
    match e {
        0 => Shift::Ls0,
        1 => Shift::Ls1,
        2 => Shift::Ls2,
        _ => Shift::Ls3,
    }
}

fn lock_gr(e: u32) -> Shift
    requires { e < 4 }
    ensures { shift_bytes result ≡ invocation 3 e }
{
    match e {
        2 => Shift::Ls2r,
        3 => Shift::Ls3r,
        _ => Shift::Ls1r,
    }
}

fn single(e: u32) -> Shift
    requires { e < 4 }
    ensures { shift_bytes result ≡ invocation 4 e }
{
    match e {
        3 => Shift::Ss3,
        _ => Shift::Ss2,
    }
}

/// Writes the invocation of the code element e.
fn put_invocation(coding: &mut [u8], at: usize, v: u32, e: u32) -> usize
    requires { (at ≤ 4294967340) × (e < 4) }
    ensures { Put coding.old at (invocation v e) coding.new result }
{
    if v < 2 {
        return at;
    }
    put_sequence(coding, at, shift(v, e).bytes())
}

/// What an invocation adds to each byte of a code.
#[tactic(auto, unfolding(encode_states::specs::Written::half))]
fn half(v: u32) -> u8
    ensures { result ≡ half v }
{
    match v {
        1 | 3 => 128,
        _ => 0,
    }
}

/// Writes a code of one byte or two, in GL's half or in GR's.
fn put_code(coding: &mut [u8], at: usize, code: u16, h: u8) -> usize
    requires { (at ≤ 4294967350) × (code / 256 < 128) × (code % 256 < 128) × (h ≤ 128) }
    ensures { Put coding.old at (map (λ b. b + h) (code_of code)) coding.new result }
{
    if code < 256 {
        return put(coding, at, code as u8 + h);
    }
    let to = put(&mut *coding, at, (code / 256) as u8 + h);
    put(coding, to, (code % 256) as u8 + h)
}

/// Writes a code of a set, by its three bits, as `how` says.
pub fn put_graphic(coding: &mut [u8], at: usize, x: u32, code: u16, how: u32) -> usize
    requires { (at ≤ 4294967296) × (x < 7) × (code / 256 < 128) × (code % 256 < 128) }
    ensures { (size : Size) → Put coding.old at
        (written_by (graphic (set_of x) (code_of code) size) (how / 16 % 4) (how / 64 % 4) (how / 256 % 2) (how / 512)) coding.new result }
{
    let e = how / 64 % 4;
    let v = how / 512;
    let to = put_size(&mut *coding, at, how / 16 % 4);
    let to = put_designation(&mut *coding, to, x, e as u8, how / 256 % 2);
    let to = put_invocation(&mut *coding, to, v, e);
    put_code(coding, to, code, half(v))
}

/// Writes SP or APR, as `how` says.
pub fn put_plain(coding: &mut [u8], at: usize, x: u8, how: u32) -> usize
    requires { at ≤ 4294967296 }
    ensures { (size : Size) → Put coding.old at (written_by (plain x size) (how / 16 % 4) (how / 64 % 4) (how / 256 % 2) (how / 512)) coding.new result }
{
    let to = put_size(&mut *coding, at, how / 16 % 4);
    put(coding, to, x)
}
