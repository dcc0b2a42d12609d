// What C links: each call of `text` under its own name, with the same clauses. A slice passes as a pointer and a length;
// include/arib_text.h says what each call takes and leaves.
#![tactic(auto)]

ghost use Rattle.decode.specs.Answers.{lent};
ghost use Rattle.reading.specs.WithoutBuffers as unbuffered;
ghost use Rattle.key.specs.Promises as keys;
ghost use Rattle.catalogue.specs.Promises as catalogues;
ghost use Rattle.bookmark.specs.Promises as bookmarks;
ghost use Rattle.encode.specs.Answers as codes;
ghost use Rattle.text.specs.Calls.{Decodes, Escapes, Measures, Cleans, Keys, Adds, Removes, Finds, Sets, Returns, Codes};

#[unsafe(no_mangle)]
pub extern "C" fn arib_decode(
    cells: &[u16],
    initial: u32,
    width: u32,
    input: &[u8],
    text: &mut [u8],
    issues: &mut [u32],
    counts: &mut [usize],
) -> u32
    ensures { Decodes (lent cells.now initial width input.now text.old issues.old) counts.old result
        text.new issues.new counts.new }
{
    text::arib_decode(cells, initial, width, input, text, issues, counts)
}

#[unsafe(no_mangle)]
pub extern "C" fn arib_unknown_escape(
    input: &[u8],
    start: usize,
    len: usize,
    part: &mut [usize],
) -> usize
    ensures { Escapes input.now start len part.old result part.new }
{
    text::arib_unknown_escape(input, start, len, part)
}

#[unsafe(no_mangle)]
pub extern "C" fn arib_measure(
    cells: &[u16],
    initial: u32,
    width: u32,
    input: &[u8],
    counts: &mut [usize],
) -> u32
    ensures { Measures (unbuffered.lent cells.now initial width input.now) counts.old result counts.new }
{
    text::arib_measure(cells, initial, width, input, counts)
}

#[unsafe(no_mangle)]
pub extern "C" fn arib_clean(
    cells: &[u16],
    initial: u32,
    width: u32,
    input: &[u8],
    counts: &mut [usize],
) -> u32
    ensures { Cleans (unbuffered.lent cells.now initial width input.now) counts.old result counts.new }
{
    text::arib_clean(cells, initial, width, input, counts)
}

#[unsafe(no_mangle)]
pub extern "C" fn arib_key(
    cells: &[u16],
    initial: u32,
    width: u32,
    input: &[u8],
    buffer: &mut [u8],
    counts: &mut [usize],
) -> u32
    ensures { Keys (keys.lent cells.now initial width input.now buffer.old) counts.old result buffer.new counts.new }
{
    text::arib_key(cells, initial, width, input, buffer, counts)
}

#[unsafe(no_mangle)]
pub extern "C" fn arib_catalogue_add(
    cells: &[u16],
    initial: u32,
    width: u32,
    title: &[u8],
    number: u32,
    store: &mut [u8],
    key: &mut [u8],
    counts: &mut [usize],
) -> u32
    ensures { Adds (catalogues.lent (keys.lent cells.now initial width title.now key.old) number store.old)
        counts.old result store.new key.new counts.new }
{
    text::arib_catalogue_add(cells, initial, width, title, number, store, key, counts)
}

#[unsafe(no_mangle)]
pub extern "C" fn arib_catalogue_remove(store: &mut [u8], number: u32) -> u32
    ensures { Removes store.old number result store.new }
{
    text::arib_catalogue_remove(store, number)
}

#[unsafe(no_mangle)]
pub extern "C" fn arib_catalogue_find(store: &[u8], key: &[u8], counts: &mut [usize]) -> u32
    ensures { Finds store.now key.now counts.old result counts.new }
{
    text::arib_catalogue_find(store, key, counts)
}

#[unsafe(no_mangle)]
pub extern "C" fn arib_bookmark_set(
    cells: &[u16],
    initial: u32,
    width: u32,
    input: &[u8],
    place: usize,
    name: u32,
    store: &mut [u32],
    counts: &mut [usize],
) -> u32
    ensures { Sets (bookmarks.setting (unbuffered.lent cells.now initial width input.now) place name store.old)
        counts.old result store.new counts.new }
{
    text::arib_bookmark_set(cells, initial, width, input, place, name, store, counts)
}

#[unsafe(no_mangle)]
pub extern "C" fn arib_bookmark_return(
    cells: &[u16],
    initial: u32,
    width: u32,
    input: &[u8],
    name: u32,
    store: &[u32],
    text: &mut [u8],
    issues: &mut [u32],
    counts: &mut [usize],
) -> u32
    ensures { Returns (bookmarks.returning (unbuffered.lent cells.now initial width input.now) name store.now
        text.old issues.old) counts.old result text.new issues.new counts.new }
{
    text::arib_bookmark_return(
        cells, initial, width, input, name, store, text, issues, counts,
    )
}

#[unsafe(no_mangle)]
pub extern "C" fn arib_encode(
    cells: &[u16],
    initial: u32,
    width: u32,
    text: &[u8],
    store: &mut [u32],
    coding: &mut [u8],
    counts: &mut [usize],
) -> u32
    ensures { Codes (codes.lent cells.now initial width text.now store.old coding.old) counts.old result
        store.new coding.new counts.new }
{
    text::arib_encode(cells, initial, width, text, store, coding, counts)
}
