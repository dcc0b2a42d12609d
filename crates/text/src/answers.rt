// How an exported call reports its answer: the counts are a refusal's place, then the numbers of an acceptance, in a refusal
// as many zeros. What the call answers in C is the number of the refusal, 0 for none.
ghost use Rattle.std.specs.Prelude.{◌≡◌, ◌∷◌, ◌≤◌, List, ℕ, []};
ghost use Rattle.questions.specs.Refusal.{refused, refused_at};
ghost use Rattle.text_counts.specs.Counts.{fronted};
ghost use Rattle.text.specs.Numbers.{reported, of_decoding, of_measuring, of_clean, of_key, of_find, of_coding};

use catalogue::Found;
use decode_read::Counts;
use encode::call::Coding;
use key::Keyed;
use measure::Measured;
use questions::refusal::Refusal;

/// What an accepted call gives, as N numbers.
pub trait Numbers<const N: usize>: Copy {
    ghost numbers_of: { Self → List ℕ };

    fn numbers(self) -> [usize; N]
        ensures { result ≡ numbers_of self };
}

/// A decoding, and the rest of one.
impl Numbers<4> for Counts {
    ghost numbers_of = { of_decoding };

    fn numbers(self) -> [usize; 4] {
        [self.text, self.issues, self.charged, self.private_use]
    }
}

impl Numbers<3> for Measured {
    ghost numbers_of = { of_measuring };

    fn numbers(self) -> [usize; 3] {
        [self.text, self.issues, self.charged]
    }
}

/// Whether a string is read without an issue: 1 for yes.
impl Numbers<1> for bool {
    ghost numbers_of = { of_clean };

    fn numbers(self) -> [usize; 1] {
        [usize::from(self)]
    }
}

/// A key, and an added one.
impl Numbers<2> for Keyed {
    ghost numbers_of = { of_key };

    fn numbers(self) -> [usize; 2] {
        [self.len, self.charged]
    }
}

impl Numbers<2> for Found {
    ghost numbers_of = { of_find };

    fn numbers(self) -> [usize; 2] {
        [self.entries, self.number as usize]
    }
}

/// A call that gives nothing: a bookmark that was set.
impl Numbers<0> for () {
    ghost numbers_of = { λ _. [] };

    fn numbers(self) -> [usize; 0] {
        []
    }
}

impl Numbers<2> for Coding {
    ghost numbers_of = { of_coding };

    fn numbers(self) -> [usize; 2] {
        [self.length, self.gap]
    }
}

/// Leaves the counts of an answer, and answers its number. No call gives more than four.
pub(crate) fn report<T: Numbers<N>, const N: usize>(
    counts: &mut [usize],
    answer: Result<T, Refusal>,
) -> u32
    requires { N ≤ 4 }
    ensures number { result ≡ refused answer }
    ensures counted { counts.new ≡ fronted counts.old (refused_at answer ∷ reported T.numbers_of N answer) }
{
    match answer {
        Ok(accepted) => {
            text_counts::report(counts, 0, &accepted.numbers());
            0
        }
        Err(refusal) => {
            text_counts::report(counts, refusal.place(), &[0; N]);
            refusal.number()
        }
    }
}
