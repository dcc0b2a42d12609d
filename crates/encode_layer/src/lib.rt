// A layer of the search in a part of the lent store: four numbers a node, three of its own and one of
// the index by which a state is found. From the closure `push` of encode.rs, and what it does with a
// layer.
#![tactic(auto)]

ghost use Rattle.std.specs.Prelude.{◌≡◌, List, [], ◌∷◌, ℕ, ◌+◌, ◌*◌, ◌≤◌, ◌<◌, length};
ghost use Rattle.base.specs.Lists.{All};
ghost use Rattle.coding.specs.Candidates.{Cand};
ghost use Rattle.coding.specs.Search.{least, lower, floor_of};
ghost use Rattle.encode_states.specs.Packed.{Proper};
ghost use Rattle.encode_layer.specs.Entries.{entry_at, set_entry, node_of, entries_of, layer_of};
ghost use Rattle.encode_layer.specs.Layer.{bucket_of, bounds, Pushes, Finds, Entered};
ghost use Rattle.encode_layer.specs.Kept.{Kept, older, Squeezed};

/// A node as the store has it: its packed state, its cost, and its link, which says how it was written
/// and its place before. The store is lent memory of plain numbers, so each has a number of its own there.
#[derive(Clone, Copy, Debug, PartialEq, Eq)]
pub struct Entry {
    pub state: u32,
    pub cost: u32,
    pub link: u32,
}

/// The part of the store that a layer has: the place of its first node, how many nodes have room, and
/// how many buckets there are.
#[derive(Clone, Copy)]
pub struct Part {
    pub from: usize,
    pub cap: usize,
    pub buckets: usize,
    pub ghost few: { cap ≤ 48385 },
    pub ghost some: { 1 ≤ buckets },
    pub ghost heads: { buckets ≤ from + cap },
    pub ghost small: { buckets ≤ 65536 },
}

/// Writes a node from the number at on.
pub fn put_node(store: &mut [u32], at: usize, entry: Entry)
    requires { at + 3 ≤ length store.old }
    ensures { store.new ≡ set_entry store.old at entry }
{
    store[at] = entry.state;
    store[at + 1] = entry.cost;
    store[at + 2] = entry.link;
}

/// The node at a place.
pub fn node(store: &[u32], place: usize) -> Entry
    requires { place * 4 + 3 ≤ length store.now }
    ensures { result ≡ entry_at store.now place }
{
    let at = place * 4;
    Entry {
        state: store[at],
        cost: store[at + 1],
        link: store[at + 2],
    }
}

/// The bucket of a state.
fn bucket(state: u32, buckets: usize) -> usize
    requires { (1 ≤ buckets) × (buckets ≤ 65536) }
    ensures { (result ≡ bucket_of buckets state) × (result < buckets) }
{
    (state as usize) * 81007 % 131072 * buckets / 131072
}

/// The place in the layer of the node that has a state, among those to which the first of a chain leads;
/// count where none has it. A `while`, for it follows a chain of places and counts nothing.
fn find(store: &[u32], from: usize, count: usize, first: usize, state: u32) -> usize
    requires { (from + count) * 4 ≤ length store.now }
    ensures { Finds store.now from count first state result }
{
    let mut last = count;
    let mut p = first;
    while p < last {
        let at = (from + p) * 4;
        if store[at] == state {
            return p;
        }
        last = p;
        p = (store[at + 3] % 65536) as usize;
    }
    count
}

/// Puts the node after the layer's count nodes at the head of a bucket, before the one that was.
fn enter(store: &mut [u32], from: usize, count: usize, b: usize, first: u32)
    requires { (b * 4 + 4 ≤ length store.old) × ((from + count) * 4 + 4 ≤ length store.old) × (count ≤ 65535) × (first ≤ 65535) }
    ensures { Entered store.old store.new from count b first }
{
    let head = b * 4 + 3;
    store[head] = (65535 - count as u32) * 65536 + store[head] % 65536;
    let next = (from + count) * 4 + 3;
    store[next] = store[next] / 65536 * 65536 + first;
}

impl Part {
    /// Pushes a node into the part's layer of count nodes. Returns how many it has then: cap + 1, as in
    /// the definition `Pushes`, says that they are more than have room, and stays so.
    pub fn push(self, store: &mut [u32], count: usize, entry: Entry) -> usize
        requires room { (self.from + self.cap) * 4 ≤ length store.old }
        requires proper { Proper entry.state }
        ensures { (cs : List Cand) (most : ℕ) → entry.cost ≤ most → Pushes cs (bounds self.from self.cap self.buckets most) store.old count store.new result
            (node_of cs entry ∷ []) }
    {
        if self.cap < count {
            return count;
        }
        let b = bucket(entry.state, self.buckets);
        let first = 65535 - store[b * 4 + 3] / 65536;
        let p = find(&*store, self.from, count, first as usize, entry.state);
        if p < count {
            let at = (self.from + p) * 4;
            if entry.cost < store[at + 1] {
                put_node(&mut *store, at, entry);
            }
            return count;
        }
        if count == self.cap {
            return count + 1;
        }
        enter(&mut *store, self.from, count, b, first);
        put_node(&mut *store, (self.from + count) * 4, entry);
        count + 1
    }
}

/// The layer's least cost, 0 where it has no node.
pub fn least(store: &[u32], from: usize, count: usize) -> u32
    requires { (from + count) * 4 ≤ length store.now }
    ensures { (cs : List Cand) → result ≡ least (layer_of cs store.now from count) }
{
    if count == 0 {
        return 0;
    }
    let last = count - 1;
    let mut best = store[(from + last) * 4 + 1];
    for i in (0..last).rev() {
        let cost = store[(from + i) * 4 + 1];
        if cost <= best {
            best = cost;
        }
    }
    best
}

/// The floor after a state of cost b is dropped, or a state that reaches it: 0 for none, else one more,
/// as the definition `floor_of` of `coding` has it.
fn lower(floor: u32, b: u32) -> u32
    requires { b < 4294967295 }
    ensures { result ≡ lower floor b }
{
    if floor == 0 {
        return b + 1;
    }
    if b < floor {
        return b + 1;
    }
    floor
}

/// What is left of a layer: how many nodes are kept, and the floor.
#[derive(Clone, Copy)]
pub struct Left {
    pub count: usize,
    pub floor: u32,
}

/// Drops the nodes of the layer that cost over most, the others moved to the number from. The
/// characters after the layer have shortest codes of rest bytes.
pub fn keep(store: &mut [u32], from: usize, count: usize, most: u32, rest: u32, low: u32) -> Left
    requires { ((from + count) * 4 ≤ length store.old) × (rest ≤ 65535) × All (λ e. e.cost ≤ 65535) (entries_of store.old from count) }
    ensures kept { Kept store.old store.new from count most result.count }
    ensures lowered { (cs : List Cand) → result.floor ≡ floor_of most rest low (layer_of cs store.old from count) }
{
    let mut f = low;
    let mut kept: usize = 0;
    for i in 0..count {
        let entry = node(&*store, from + i);
        if entry.cost <= most {
            put_node(&mut *store, from + kept * 4, entry);
            kept += 1;
        } else {
            f = lower(f, entry.cost + rest);
        }
    }
    Left {
        count: kept,
        floor: f,
    }
}

/// A node's one number, once its layer is older.
fn older(link: u32, place: u32) -> u32
    requires { place < 131072 }
    ensures { result ≡ older link place }
{
    let prev = link % 131072;
    let how = link - prev;
    if prev < place {
        return how + (place - prev);
    }
    how
}

/// Squeezes the count nodes with which the part begins into one number each. The layer before is of
/// before numbers.
pub fn squeeze(store: &mut [u32], count: usize, before: usize)
    requires { (count * 4 ≤ length store.old) × (before + count ≤ 131072) }
    ensures { Squeezed store.old store.new count before }
{
    for i in 0..count {
        store[i] = older(store[i * 4 + 2], (before + i) as u32);
    }
}
