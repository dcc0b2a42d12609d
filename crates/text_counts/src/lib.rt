// What the exported calls leave in a slice of counts, which may have any length.
#![tactic(auto)]

ghost use Rattle.std.specs.Prelude.{◌≡◌, ◌∷◌, set};
ghost use Rattle.text_counts.specs.Counts.{fronted, escape_start};

/// One number of the counts, where they reach so far.
fn put(counts: &mut [usize], n: usize, x: usize)
    ensures { counts.new ≡ set counts.old n x }
{
    if n < counts.len() {
        counts[n] = x;
    }
}

/// The counts of an answer: its place, then its numbers, as far as the slice reaches.
pub fn report(counts: &mut [usize], place: usize, numbers: &[usize])
    ensures { counts.new ≡ fronted counts.old (place ∷ numbers.now) }
{
    put(counts, 0, place);
    for (i, x) in numbers.iter().enumerate() {
        put(counts, 1 + i, *x);
    }
}

/// Where the part of an unknown escape begins in an input of so many bytes.
#[tactic(auto, unfolding(crate::specs::Counts::escape_start))]
pub fn escape_start(size: usize, start: usize, len: usize) -> usize
    ensures { result ≡ escape_start size start len }
{
    if start > size {
        return 0;
    }
    if len > size - start {
        return 0;
    }
    start
}
