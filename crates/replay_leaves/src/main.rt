// Holds the leaf functions to the Rust's answers over their whole domains. `leaves.bin` has the answers and `jis.tab`
// the cell table (oracle/README.md has both layouts). A line for each part says how many numbers were compared and how
// many differ.
#![tactic(auto)]

mod characters;
mod codes;
mod numbers;
mod part;

use part::compare;
use replay_vectors::files::{cells, read};
use replay_vectors::tally::{Tally, line};

/// The code tables of the graphic sets.
fn code_tables(rt: &impl Print, answers: &[u8], t: &[u16]) -> Tally {
    let kanji = line(
        rt,
        b"kanji",
        compare(|i| characters::kanji(t, i), answers, 0, 0, 8836),
    );
    let additional = line(
        rt,
        b"additional_symbols",
        compare(characters::additional_symbols, answers, 8836, 0, 8836),
    );
    let alphanumeric = line(
        rt,
        b"alphanumeric",
        compare(characters::alphanumeric, answers, 17672, 0, 256),
    );
    let hiragana = line(
        rt,
        b"hiragana",
        compare(characters::hiragana, answers, 17928, 0, 256),
    );
    let katakana = line(
        rt,
        b"katakana",
        compare(characters::katakana, answers, 18184, 0, 256),
    );
    let x0201 = line(
        rt,
        b"jis_x0201_katakana",
        compare(characters::jis_x0201_katakana, answers, 18440, 0, 256),
    );
    kanji
        .plus(additional)
        .plus(alphanumeric)
        .plus(hiragana)
        .plus(katakana)
        .plus(x0201)
}

/// The control codes, the graphic sets, the shifts, the sizes and the initial states.
fn codes_and_sets(rt: &impl Print, answers: &[u8]) -> Tally {
    let params = line(
        rt,
        b"fixed_params",
        compare(codes::fixed_params, answers, 18696, 0, 256),
    );
    let names = line(rt, b"name", compare(codes::name, answers, 18952, 0, 1536));
    let sets = line(
        rt,
        b"graphic_sets",
        compare(codes::graphic_sets, answers, 20488, 0, 864),
    );
    let designated = line(
        rt,
        b"from_designation",
        compare(codes::from_designation, answers, 21352, 0, 1024),
    );
    let shifts = line(rt, b"shifts", compare(codes::shifts, answers, 22376, 0, 36));
    let sizes = line(
        rt,
        b"is_narrow",
        compare(codes::is_narrow, answers, 22412, 0, 259),
    );
    let initial = line(
        rt,
        b"initial_states",
        compare(codes::initial_states, answers, 22671, 0, 12),
    );
    params
        .plus(names)
        .plus(sets)
        .plus(designated)
        .plus(shifts)
        .plus(sizes)
        .plus(initial)
}

/// What is asked of Unicode characters. Of surrogates, D800 to DFFF, the Rust has no answer.
fn unicode(rt: &impl Print, answers: &[u8]) -> Tally {
    let low = compare(characters::fullwidth, answers, 22683, 0, 0xD800);
    let high = compare(characters::fullwidth, answers, 22683, 0xE000, 0x10000);
    let fullwidth = line(rt, b"fullwidth", low.plus(high));
    let marks = line(
        rt,
        b"is_non_spacing",
        compare(characters::is_non_spacing, answers, 88219, 0, 12288),
    );
    fullwidth.plus(marks)
}

/// All parts, and the sums.
fn replay(rt: &impl Print, answers: &[u8], t: &[u16]) {
    let sum = code_tables(rt, answers, t)
        .plus(codes_and_sets(rt, answers))
        .plus(unicode(rt, answers));
    line(rt, b"leaves", sum);
}

/// The buffer has room for one byte more than the file, so that a longer file shows.
fn main(rt: HostRuntime) {
    let mut t = [0u16; 8836];
    if !cells(&rt, &mut t) {
        return;
    }
    let mut answers = [0u8; 301522];
    let n = read(&rt, b"leaves.bin", &mut answers);
    if n != 301521 {
        let _ = println!(rt; "leaves.bin does not have 301521 bytes");
        return;
    }
    replay(&rt, &answers[..n], &t);
}
