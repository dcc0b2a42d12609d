// The store of bookmarks, request 9, and which of its numbers a reading can go on from.
#![tactic(auto)]

ghost use Rattle.std.specs.Prelude.{◌≡◌, List, ℕ, ◌-◌, ◌≤◌, length, get_or};
ghost use Rattle.bookmark_form.specs.Form.{
  is_store,
  settings_hold,
  counts_hold,
  marks_hold,
  body_holds,
  bodies_hold,
  resumable,
};

/// How many bookmarks a store has, and how many numbers each.
pub const NAMES: usize = 16;

pub const SIZE: usize = 287;

// Where its numbers stand, as specs/Numbers.antt orders them: the place, the sets of G0 to G3, GL and GR, whether the size
// is narrow, the repeat that waits, how many marks do, the marks, the macro starts and lengths by code, the charge and the
// length of the text.
const PLACE: usize = 1;

const SETS: usize = 2;

const ELEMENTS: usize = 6;

const NARROW: usize = 8;

const REPEAT: usize = 9;

const WAITING: usize = 10;

const MARKS: usize = 12;

const STARTS: usize = 28;

const LENS: usize = 156;

const CHARGED: usize = 284;

const TEXT: usize = 285;

/// The most bytes of text before a bookmark: what is written behind it still has a position of 32 bits.
const TEXT_LIMIT: u32 = 0x7FFFFFFF;

/// Whether a store is one of bookmarks.
pub fn is_store(store: &[u32]) -> bool
    ensures { result ≡ is_store store.now }
{
    store.len() == NAMES * SIZE && (0..NAMES).all(|name| store[name * SIZE] <= 1)
}

/// Whether sets, elements and size are a state's.
fn settings_hold(l: &[u32]) -> bool
    requires { length l.now ≡ 287 }
    ensures { result ≡ settings_hold l.now }
{
    l[SETS..ELEMENTS].iter().all(|&set| set <= 31)
        && l[ELEMENTS..NARROW].iter().all(|&element| element <= 3)
        && l[NARROW] <= 1
}

/// Whether place and counts are within their bounds.
fn counts_hold(input: usize, l: &[u32]) -> bool
    requires { (input ≤ 65535) × (length l.now ≡ 287) }
    ensures { (b : List ℕ) → length b ≡ input → result ≡ counts_hold b l.now }
{
    l[PLACE] as usize <= input
        && l[REPEAT] <= 63
        && l[WAITING] <= 16
        && l[CHARGED] as usize <= input * 64 + 4096
        && l[TEXT] <= TEXT_LIMIT
}

/// Whether the waiting marks are of the seven.
fn marks_hold(l: &[u32]) -> bool
    requires { (length l.now ≡ 287) × (get_or l.now 10 0 ≤ 16) }
    ensures { result ≡ marks_hold l.now }
{
    let end = MARKS + l[WAITING] as usize;
    l[MARKS..end]
        .iter()
        .all(|&mark| tables::is_non_spacing(mark).mark)
}

/// A start without the 1 that is added to it.
pub fn start_of(number: u32) -> usize
    ensures { result ≡ number - 1 }
{
    number.saturating_sub(1) as usize
}

/// Whether a body lies in the input, and no definition ends in it.
fn body_holds(input: &[u8], start: usize, len: usize) -> bool
    requires { (start ≤ 0xFFFFFFFF) × (len ≤ 0xFFFFFFFF) }
    ensures { result ≡ body_holds input.now start len }
{
    let end = start + len;
    if end > input.len() {
        return false;
    }
    decode_macros::body_end(&input[start..end], 0) == len
}

/// Whether all bodies do.
fn bodies_hold(input: &[u8], l: &[u32]) -> bool
    requires { length l.now ≡ 287 }
    ensures { result ≡ bodies_hold input.now l.now }
{
    for code in 0..128 {
        if !body_holds(input, start_of(l[STARTS + code]), l[LENS + code] as usize) {
            return false;
        }
    }
    true
}

/// Whether a reading of the input can go on from a bookmark's numbers.
pub fn resumable(input: &[u8], l: &[u32]) -> bool
    requires { (length input.now ≤ 65535) × (length l.now ≡ 287) }
    ensures { result ≡ resumable input.now l.now }
{
    if !settings_hold(l) {
        return false;
    }
    if !counts_hold(input.len(), l) {
        return false;
    }
    if !marks_hold(l) {
        return false;
    }
    bodies_hold(input, l)
}
