// The parts of `leaves.bin`, in their order there.
ghost use Rattle.std.specs.Prelude.{◌+◌, ◌≤◌};

use replay_vectors::files::byte;
use replay_vectors::tally::Tally;

/// Number i of `leaves.bin`, of three bytes; 0 past the end.
fn number(answers: &[u8], i: usize) -> usize {
    if i < answers.len() / 3 {
        byte(answers, 3 * i) * 65536 + byte(answers, 3 * i + 1) * 256 + byte(answers, 3 * i + 2)
    } else {
        0
    }
}

/// Compares the numbers of a part, of which the Rattle function gives number i, from `from` up to `to`, which is left out.
/// The part starts at number `first`.
pub fn compare<F: Fn(usize) -> usize>(
    answer: F,
    answers: &[u8],
    first: usize,
    from: usize,
    to: usize,
) -> Tally
    requires callable { F.IsAlwaysCallable answer }
    requires within { first + to ≤ 100507 }
{
    let mut tally = Tally::none();
    for i in from..to {
        tally = tally.plus(Tally::one(number(answers, first + i) == answer(i)));
    }
    tally
}
