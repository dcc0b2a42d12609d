// Bookmarks in a caption file, request 9: a place of an input is named, with the state of the reading there, and returned to.
#![tactic(auto)]

ghost use Rattle.std.specs.Prelude.{◌≡◌, true, ◌≤◌, length};
ghost use Rattle.reading.specs.State.{given};
ghost use Rattle.reading.specs.WithoutBuffers as unbuffered;
ghost use Rattle.decode.specs.Answers.{Answers};
ghost use Rattle.bookmark_form.specs.Form.{resumable};
ghost use Rattle.bookmark.specs.Bookmark.{name_holds, resumed};
ghost use Rattle.bookmark.specs.Promises.{setting, returning, Sets, Returns};

use bookmark_form::SIZE;
use decode_output::SEVENTEEN_DIGITS;
use decode_read::Counts;
use issues::NUMBERS;
use questions::refusal::Refusal;

/// Where the text's length stands among the numbers of a bookmark.
const TEXT: usize = 285;

/// Whether a store is one of bookmarks, and has one of the name.
fn name_holds(store: &[u32], name: u32) -> bool
    ensures { result ≡ name_holds store.now name }
{
    if name > 15 {
        return false;
    }
    bookmark_form::is_store(store)
}

/// Names the place, where questions 1 to 3 and 15 were put and passed: reads up to it, and keeps nothing but the state.
fn set_checked(
    cells: &[u16],
    initial: u32,
    width: u32,
    input: &[u8],
    place: usize,
    name: u32,
    store: &mut [u32],
) -> Result<(), Refusal>
    requires input_value { unbuffered.refusal (unbuffered.lent cells.now initial width input.now) ≡ 0 }
    requires name_value { name_holds store.old name ≡ true }
    requires place_in_bounds { place ≤ length input.now }
    ensures { Sets (setting (unbuffered.lent cells.now initial width input.now) place name store.old) result store.new }
{
    let mut text = [0u8; 0];
    let mut issues = [0u32; 0];
    let start = decode_state::start(initial, width, decode_state::UNBOUNDED);
    let none = decode_state::undefined(start);
    let w = decode_outer::top(cells, input, 0, place, none, &mut text, &mut issues);
    if w.at != place {
        return Err(Refusal::BookmarkPlace);
    }
    let d = w.decoder;
    if d.core.out.waiting >= SEVENTEEN_DIGITS {
        return Err(Refusal::BookmarkPlace);
    }
    bookmark_numbers::put(store, name as usize * SIZE, place as u32, d);
    Ok(())
}

/// Names a place of the input. The options are as wide as a C caller's: question 2 asks them of `arib_bookmark_set` too.
pub fn set(
    cells: &[u16],
    initial: u32,
    width: u32,
    input: &[u8],
    place: usize,
    name: u32,
    store: &mut [u32],
) -> Result<(), Refusal>
    ensures { Sets (setting (unbuffered.lent cells.now initial width input.now) place name store.old) result store.new }
{
    questions::first(cells, initial, width, questions::DECODE_LIMIT, input.len())?;
    if !name_holds(store, name) {
        return Err(Refusal::BookmarkMismatch);
    }
    if place > input.len() {
        return Err(Refusal::BookmarkPlace);
    }
    set_checked(cells, initial, width, input, place, name, store)
}

/// Reads on from a bookmark's numbers: the positions of the issues are those in the whole text.
fn read_on(
    cells: &[u16],
    width: u32,
    input: &[u8],
    l: &[u32],
    text: &mut [u8],
    issues: &mut [u32],
) -> Result<Counts, Refusal>
    requires input_len_bound { (length input.now ≤ 65535) × (length l.now ≡ 287) }
    requires l_value { resumable input.now l.now ≡ true }
    ensures { Answers (resumed (given cells.now width input.now) l.now) (length text.old) (length issues.old) result
        text.new issues.new }
{
    let d = bookmark_numbers::decoder(input, width, l, text);
    let counts = decode_read::rest(cells, input, l[1] as usize, d, text, issues);
    if counts.issues * NUMBERS > issues.len() {
        return decode::call::finish(counts, text, issues);
    }
    bookmark_positions::shift(issues, counts.issues, l[TEXT]);
    decode::call::finish(counts, text, issues)
}

/// Returns to a name: the text and the issues of the rest, as a decoding has them.
pub fn return_to(
    cells: &[u16],
    initial: u32,
    width: u32,
    input: &[u8],
    name: u32,
    store: &[u32],
    text: &mut [u8],
    issues: &mut [u32],
) -> Result<Counts, Refusal>
    ensures { Returns (returning (unbuffered.lent cells.now initial width input.now) name store.now text.old
        issues.old) result text.new issues.new }
{
    if let Err(refusal) = questions::first(
        cells,
        initial,
        width,
        questions::DECODE_LIMIT,
        input.len(),
    ) {
        return decode::call::refuse(refusal, text, issues);
    }
    if !name_holds(store, name) {
        return decode::call::refuse(Refusal::BookmarkMismatch, text, issues);
    }
    let from = name as usize * SIZE;
    let l = &store[from..from + SIZE];
    if l[0] != 1 {
        return decode::call::refuse(Refusal::BookmarkMismatch, text, issues);
    }
    if !bookmark_form::resumable(input, l) {
        return decode::call::refuse(Refusal::BookmarkMismatch, text, issues);
    }
    read_on(cells, width, input, l, text, issues)
}
