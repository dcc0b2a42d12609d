// A bookmark's numbers, request 9: from the decoder into the store, and back.
#![tactic(auto)]

ghost use Rattle.std.specs.Prelude.{◌≡◌, true, cond, [], ◌∷◌, ◌++◌, map, ℕ, ◌+◌, ◌-◌, ◌≤◌, ◌<◌, length, take, drop, get_or};
ghost use Rattle.lent.specs.Put.{Put};
ghost use Rattle.bookmark_form.specs.Numbers.{plus_one};
ghost use Rattle.bookmark_form.specs.Form.{resumable};
ghost use Rattle.bookmark_marks.specs.Marks.{unpacked};
ghost use Rattle.bookmark_numbers.specs.Promises.{Stored, Restored};

use decode_state::{Core, Decoder, Macros};

/// A start plus 1, 0 for none.
fn plus_one(start: u16) -> u32
    ensures { result ≡ plus_one start }
{
    if start == 0 { 0 } else { start as u32 + 1 }
}

/// Writes numbers from the place `at` on, and answers the place behind them.
fn put_all(store: &mut [u32], at: usize, s: &[u32]) -> usize
    requires { at + length s.now ≤ length store.old }
    ensures { Put store.old at s.now store.new result }
{
    let end = at + s.len();
    store[at..end].copy_from_slice(s);
    end
}

/// The starts of macro bodies, each plus 1.
fn starts(macros: &Macros) -> [u32; 128]
    ensures { result ≡ map plus_one macros.now.starts }
{
    let mut numbers = [0; 128];
    for code in 0..128 {
        numbers[code] = plus_one(macros.starts[code]);
    }
    numbers
}

/// Their lengths.
fn lens(macros: &Macros) -> [u32; 128]
    ensures { result ≡ macros.now.lens }
{
    let mut numbers = [0; 128];
    for code in 0..128 {
        numbers[code] = u32::from(macros.lens[code]);
    }
    numbers
}

/// The numbers before the marks.
fn front_of(place: u32, core: Core) -> [u32; 12]
    ensures { result ≡ 1 ∷ place ∷ (core.sets ++ (core.gl ∷ core.gr ∷ cond core.narrow 1 0 ∷ core.out.repeat
        ∷ length (unpacked 16 core.out.waiting []) ∷ core.out.first ∷ [])) }
{
    let sets = core.sets;
    let out = core.out;
    [
        1,
        place,
        sets[0] as u32,
        sets[1] as u32,
        sets[2] as u32,
        sets[3] as u32,
        core.gl as u32,
        core.gr as u32,
        core.narrow as u32,
        out.repeat,
        bookmark_marks::count(out.waiting) as u32,
        out.first,
    ]
}

/// Writes the numbers of the decoder's state, of which the next step begins at the place, from the number `at` of the store
/// on.
pub fn put(store: &mut [u32], at: usize, place: u32, d: Decoder) -> usize
    requires { (at + 287 ≤ length store.old) × (d.core.out.len ≤ 0xFFFFFFFF) }
    ensures { Stored place d store.old at store.new result }
{
    let core = d.core;
    let out = core.out;
    let front = front_of(place, core);
    let mut n = put_all(store, at, &front);
    let marks = bookmark_marks::unpack(out.waiting);
    n = put_all(store, n, &marks);
    n = put_all(store, n, &starts(&d.macros));
    n = put_all(store, n, &lens(&d.macros));
    let back = [core.charged, out.len as u32, out.issues];
    put_all(store, n, &back)
}

/// Reads the macro bodies of a bookmark; each lies in an input.
fn read_bodies(l: &[u32]) -> Macros
    requires l_len { length l.now ≡ 287 }
    requires by_index { (code : ℕ) → code < 128 → (get_or l.now (28 + code) 0 - 1 ≤ 65535) × (get_or l.now (156 + code) 0 ≤ 65535) }
    ensures starts { result.starts ≡ map (λ (n : ℕ). n - 1) (take 128 (drop 28 l.now)) }
    ensures lens { result.lens ≡ take 128 (drop 156 l.now) }
{
    let mut starts = [0; 128];
    let mut lens = [0; 128];
    for code in 0..128 {
        starts[code] = bookmark_form::start_of(l[28 + code]) as u16;
        lens[code] = l[156 + code] as u16;
    }
    Macros { starts, lens }
}

/// The decoder at the state that numbers say, for a reading of the input: nothing is written yet but the marks that wait.
pub fn decoder(input: &[u8], width: u32, l: &[u32], text: &mut [u8]) -> Decoder
    requires input_len_bound { (length input.now ≤ 65535) × (length l.now ≡ 287) }
    requires l_value { resumable input.now l.now ≡ true }
    ensures { Restored input.now width l.now text.old result text.new }
{
    let out = bookmark_marks::restore(l, text);
    let sets = [l[2] as u8, l[3] as u8, l[4] as u8, l[5] as u8];
    let core = Core {
        sets,
        gl: l[6] as u8,
        gr: l[7] as u8,
        narrow: l[8] == 1,
        annex: width == 1,
        enough: decode_state::UNBOUNDED,
        charged: l[284],
        out,
    };
    let macros = read_bodies(l);
    Decoder { core, macros }
}
