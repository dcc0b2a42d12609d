// The search for the shortest coding, a layer of states for each character, in the lent store: the
// loop of `encode_with` of encode.rs. The newest layer has four numbers a state, the layers before it
// one; while the next is reached, the part of the store from the newest on is lent.
#![tactic(auto)]

ghost use Rattle.std.specs.Prelude.{◌≡◌, ◌+◌, ◌-◌, ◌*◌, ◌≤◌, ◌<◌, length};
ghost use Rattle.base.specs.Lists.{All};
ghost use Rattle.encode_layer.specs.Entries.{entries_of};
ghost use Rattle.encode_layer.specs.Layer.{Sound};
ghost use Rattle.encode_search.specs.Layers.{Reached, Capped, Advanced, Turned, Begins, Few, Searched};

use encode_candidates::candidate::Candidate;
use encode_layer::{Entry, Part};
use encode_tokens::Character;

/// Every state that the first pcount nodes reach by the candidates, behind them. Returns how many there
/// are, cap + 1 for more than cap.
fn reach(
    store: &mut [u32],
    pcount: usize,
    cap: usize,
    buckets: usize,
    candidates: &[Candidate],
) -> usize
    requires { ((pcount + cap) * 4 ≤ length store.old) × (cap ≤ 48385) × (pcount ≤ 131072) × (buckets ≤ pcount + cap) × (1 ≤ pcount → 1 ≤ buckets) ×
        (buckets ≤ 65536) × (length candidates.now ≤ 9) × All (Sound 65535) (entries_of store.old 0 pcount) }
    ensures { Reached store.old store.new pcount cap buckets candidates.now result }
{
    let mut count = 0;
    for i in 0..pcount {
        let part = Part {
            from: pcount,
            cap,
            buckets,
        };
        let entry = Entry {
            state: store[i * 4],
            cost: store[i * 4 + 1],
            link: i as u32,
        };
        count = encode_ways::by_candidates(&mut *store, part, count, entry, candidates);
    }
    count
}

/// How many nodes have room behind the first from, in a part of len numbers.
fn room(len: usize, from: usize) -> usize
    requires { from * 4 ≤ len }
    ensures { Capped len from result }
{
    (len / 4 - from).min(48385)
}

/// How many buckets the index has in a part of so many nodes.
fn buckets(nodes: usize) -> usize
    ensures { (result ≤ nodes) × (result ≤ 16384) × (1 ≤ nodes → 1 ≤ result) }
{
    nodes.min(16384)
}

/// Where the search stands: how many nodes the newest layer has, and the one before it, the shortest
/// codes of the characters to come in bytes, and the floor.
#[derive(Clone, Copy, Debug, PartialEq, Eq)]
struct Stand {
    count: usize,
    before: usize,
    rest: usize,
    floor: u32,
}

/// The layer behind the newest one, with which the part begins, for a character with these candidates,
/// or none where it does not fit the store; the newest one is squeezed. Of what stands, the rest is that
/// after the character.
fn advance(store: &mut [u32], at: Stand, candidates: &[Candidate]) -> Option<Stand>
    requires { (at.count * 4 ≤ length store.old) × (at.count ≤ 48384) × (at.before ≤ 48384) × (length candidates.now ≤ 9) × (at.rest ≤ 65535) ×
        All (Sound 65526) (entries_of store.old 0 at.count) }
    ensures { Advanced store.old store.new at candidates.now result }
{
    let from = at.count;
    let cap = room(store.len(), from);
    let n = reach(&mut *store, from, cap, buckets(from + cap), candidates);
    if cap < n {
        return None;
    }
    let most = encode_layer::least(&*store, from, n) + 10;
    encode_layer::squeeze(&mut *store, from, at.before);
    let left = encode_layer::keep(&mut *store, from, n, most, at.rest as u32, at.floor);
    Some(Stand {
        count: left.count,
        before: from,
        rest: at.rest,
        floor: left.floor,
    })
}

/// The layer behind the newest one, with which the part begins, for a character.
fn turn(store: &mut [u32], at: Stand, x: Character, annex: bool) -> Option<Stand>
    requires { (at.count * 4 ≤ length store.old) × (at.count ≤ 48384) × (at.before ≤ 48384) × (at.rest ≤ 65535) ×
        All (Sound 65526) (entries_of store.old 0 at.count) }
    ensures { Turned store.old store.new at x annex result }
{
    let candidates = encode_candidates::candidates(x.char, x.kanji, x.symbol, annex);
    let left = Stand {
        rest: at
            .rest
            .saturating_sub(encode_candidates::shortest(candidates.as_slice())),
        ..at
    };
    advance(&mut *store, left, candidates.as_slice())
}

/// What stays through a search: the sum of the characters' shortest codes in bytes, and the options.
#[derive(Clone, Copy, Debug, PartialEq, Eq)]
pub struct Task {
    pub rest: usize,
    pub annex: bool,
    pub initial: u32,
}

/// Where the search led: from which number on the newest layer stands, how many nodes it has and the one
/// before it, and the floor.
#[derive(Clone, Copy, Debug, PartialEq, Eq)]
pub struct Last {
    pub from: usize,
    pub count: usize,
    pub before: usize,
    pub floor: u32,
}

/// A layer for each of the characters, behind the start, which stands in the store.
fn run(store: &mut [u32], characters: &[Character], task: Task) -> Option<Last>
    requires { Few characters.now task.rest × (4 ≤ length store.old) × All (Sound 0) (entries_of store.old 0 1) }
    ensures { Begins task.initial store.old → Searched characters.now task.annex task.initial task.rest store.old store.new result }
{
    let mut from = 0;
    let mut at = Stand {
        count: 1,
        before: 0,
        rest: task.rest,
        floor: 0,
    };
    for character in characters {
        let next = turn(&mut store[from..], at, *character, task.annex)?;
        from += at.count;
        at = next;
    }
    Some(Last {
        from,
        count: at.count,
        before: at.before,
        floor: at.floor,
    })
}

/// The search for characters, with their cells of the Kanji set and of the additional symbols. None where
/// its layers do not fit the store.
pub fn search(store: &mut [u32], characters: &[Character], task: Task) -> Option<Last>
    requires { Few characters.now task.rest × (1 ≤ length characters.now) }
    ensures { Searched characters.now task.annex task.initial task.rest store.old store.new result }
{
    if store.len() < 4 {
        return None;
    }
    let start = Entry {
        state: encode_states::start(task.initial),
        cost: 0,
        link: 0,
    };
    encode_layer::put_node(&mut *store, 0, start);
    run(&mut *store, characters, task)
}
