// The calls that other programs link: lib.rs. Each is a function of the crates below, with plain C names; a slice
// passes as a pointer and a length. `text_c` exports them.
#![tactic(auto)]

mod answers;

ghost use Rattle.decode.specs.Answers.{lent};
ghost use Rattle.reading.specs.WithoutBuffers as unbuffered;
ghost use Rattle.key.specs.Promises as keys;
ghost use Rattle.catalogue.specs.Promises as catalogues;
ghost use Rattle.bookmark.specs.Promises as bookmarks;
ghost use Rattle.encode.specs.Answers as codes;
ghost use Rattle.text.specs.Calls.{Decodes, Escapes, Measures, Cleans, Keys, Adds, Removes, Finds, Sets, Returns, Codes};

use answers::report;

/// `decode_with`: the counts are the place of a refusal, then the text's bytes, the issues, the charge
/// and the private-use characters. Answers the number of the refusal, 0 for none.
#[unsafe(no_mangle)]
pub extern "C" fn arib_decode(
    cells: &[u16],
    initial: u32,
    width: u32,
    input: &[u8],
    text: &mut [u8],
    issues: &mut [u32],
    counts: &mut [usize],
) -> u32
    ensures { Decodes (lent cells.now initial width input.now text.old issues.old) counts.old result
        text.new issues.new counts.new }
{
    let answer = decode::call::decode_with(cells, initial, width, input, text, issues);
    report(counts, answer)
}

/// The part of the input that an unknown escape is: its start and length go to `part`, and its length
/// is the answer.
#[unsafe(no_mangle)]
pub extern "C" fn arib_unknown_escape(
    input: &[u8],
    start: usize,
    len: usize,
    part: &mut [usize],
) -> usize
    ensures { Escapes input.now start len part.old result part.new }
{
    let escape = decode::call::unknown_escape(input, start, len);
    let n = escape.len();
    let from = text_counts::escape_start(input.len(), start, len);
    text_counts::report(part, from, &[n]);
    n
}

/// How much buffer the decoding of a string needs: the counts are the place of a refusal, then the text's bytes, the
/// issues and the charge. Answers the number of the refusal, 0 for none.
#[unsafe(no_mangle)]
pub extern "C" fn arib_measure(
    cells: &[u16],
    initial: u32,
    width: u32,
    input: &[u8],
    counts: &mut [usize],
) -> u32
    ensures { Measures (unbuffered.lent cells.now initial width input.now) counts.old result counts.new }
{
    let answer = measure::measure(cells, initial, width, input);
    report(counts, answer)
}

/// Whether a string is read without an issue: the counts are the place of a refusal, then 1 for yes or 0. Answers the
/// number of the refusal, 0 for none.
#[unsafe(no_mangle)]
pub extern "C" fn arib_clean(
    cells: &[u16],
    initial: u32,
    width: u32,
    input: &[u8],
    counts: &mut [usize],
) -> u32
    ensures { Cleans (unbuffered.lent cells.now initial width input.now) counts.old result counts.new }
{
    let answer = clean::clean(cells, initial, width, input);
    report(counts, answer)
}

/// The key of a title: the counts are the place of a refusal, then the key's bytes and the charge.
/// Answers the number of the refusal, 0 for none.
#[unsafe(no_mangle)]
pub extern "C" fn arib_key(
    cells: &[u16],
    initial: u32,
    width: u32,
    input: &[u8],
    buffer: &mut [u8],
    counts: &mut [usize],
) -> u32
    ensures { Keys (keys.lent cells.now initial width input.now buffer.old) counts.old result buffer.new counts.new }
{
    let answer = key::key(cells, initial, width, input, buffer);
    report(counts, answer)
}

/// Adds a title to a catalogue, with a number of the caller's own: the counts are the place of a refusal, then the key's
/// bytes and the charge. Answers the number of the refusal, 0 for none.
#[unsafe(no_mangle)]
pub extern "C" fn arib_catalogue_add(
    cells: &[u16],
    initial: u32,
    width: u32,
    title: &[u8],
    number: u32,
    store: &mut [u8],
    key: &mut [u8],
    counts: &mut [usize],
) -> u32
    ensures { Adds (catalogues.lent (keys.lent cells.now initial width title.now key.old) number store.old)
        counts.old result store.new key.new counts.new }
{
    let answer = catalogue::add(cells, initial, width, title, number, store, key);
    report(counts, answer)
}

/// Removes the entry of a number from a catalogue. Answers the number of the refusal, 0 for none.
#[unsafe(no_mangle)]
pub extern "C" fn arib_catalogue_remove(store: &mut [u8], number: u32) -> u32
    ensures { Removes store.old number result store.new }
{
    match catalogue::remove(store, number) {
        Ok(()) => 0,
        Err(refusal) => refusal.number(),
    }
}

/// Finds the entries of a catalogue that have a key: the counts are the place of a refusal, then the entries and the
/// smallest of their numbers. Answers the number of the refusal, 0 for none.
#[unsafe(no_mangle)]
pub extern "C" fn arib_catalogue_find(store: &[u8], key: &[u8], counts: &mut [usize]) -> u32
    ensures { Finds store.now key.now counts.old result counts.new }
{
    let answer = catalogue::find(store, key);
    report(counts, answer)
}

/// Names a place of an input in a store of bookmarks: the counts are the place of a refusal. Answers the number of the
/// refusal, 0 for none.
#[unsafe(no_mangle)]
pub extern "C" fn arib_bookmark_set(
    cells: &[u16],
    initial: u32,
    width: u32,
    input: &[u8],
    place: usize,
    name: u32,
    store: &mut [u32],
    counts: &mut [usize],
) -> u32
    ensures { Sets (bookmarks.setting (unbuffered.lent cells.now initial width input.now) place name store.old)
        counts.old result store.new counts.new }
{
    let answer = bookmark::set(cells, initial, width, input, place, name, store);
    report(counts, answer)
}

/// Returns to a named place: the counts are those of `arib_decode`, of the rest, and the charge of the whole reading.
/// Answers the number of the refusal, 0 for none.
#[unsafe(no_mangle)]
pub extern "C" fn arib_bookmark_return(
    cells: &[u16],
    initial: u32,
    width: u32,
    input: &[u8],
    name: u32,
    store: &[u32],
    text: &mut [u8],
    issues: &mut [u32],
    counts: &mut [usize],
) -> u32
    ensures { Returns (bookmarks.returning (unbuffered.lent cells.now initial width input.now) name store.now
        text.old issues.old) counts.old result text.new issues.new counts.new }
{
    let answer = bookmark::return_to(cells, initial, width, input, name, store, text, issues);
    report(counts, answer)
}

/// `encode_with`: the counts are the place of a refusal, then the coding's bytes and the gap. Answers
/// the number of the refusal, 0 for none.
#[unsafe(no_mangle)]
pub extern "C" fn arib_encode(
    cells: &[u16],
    initial: u32,
    width: u32,
    text: &[u8],
    store: &mut [u32],
    coding: &mut [u8],
    counts: &mut [usize],
) -> u32
    ensures { Codes (codes.lent cells.now initial width text.now store.old coding.old) counts.old result
        store.new coding.new counts.new }
{
    let answer = encode::call::encode_with(cells, initial, width, text, store, coding);
    report(counts, answer)
}
