// Issues of the rest of a reading, request 9: their positions are those in the whole text.
#![tactic(auto)]

ghost use Rattle.std.specs.Prelude.{◌≡◌, ℕ, ◌+◌, ◌*◌, ◌≤◌, ◌<◌, length, get_or};
ghost use Rattle.bookmark_positions.specs.Positions.{moved};

use issues::NUMBERS;

/// Where the position stands among the numbers of an issue.
const POSITION: usize = 4;

/// Moves the positions of n issues.
pub fn shift(issues: &mut [u32], n: usize, by: u32)
    requires n_bound { (n ≤ 0x10000000000) × (5 * n ≤ length issues.old) }
    requires by_index { (k : ℕ) → k < n → by + get_or issues.old (5 * k + 4) 0 ≤ 0xFFFFFFFF }
    ensures { issues.new ≡ moved n by issues.old }
{
    // By number: a proof knows nothing of what a loop over `chunks_exact_mut` writes.
    for k in 0..n {
        issues[NUMBERS * k + POSITION] += by;
    }
}
