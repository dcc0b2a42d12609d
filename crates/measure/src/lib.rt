// The measuring call: how many bytes of text, issues and charge a string is read with, or the number of the first
// question that fails. Request 5, "How much buffer", and 01, "The questions, put in this order".
#![tactic(auto)]

ghost use Rattle.std.specs.Prelude.{◌≡◌, length};
ghost use Rattle.questions.specs.Questions.{first_refusal};
ghost use Rattle.reading.specs.WithoutBuffers.{lent};
ghost use Rattle.measure.specs.Promises.{Answered};

use questions::refusal::Refusal;

/// What a string is read with: the text's bytes, the issues and the charge.
#[derive(Clone, Copy, Debug, PartialEq, Eq)]
pub struct Measured {
    pub text: usize,
    pub issues: usize,
    pub charged: usize,
}

/// The answer where questions 1 to 3 were put and passed: a reading into no buffers, which counts all and writes nothing.
fn measure_checked(cells: &[u16], initial: u32, width: u32, input: &[u8]) -> Measured
    requires { first_refusal cells.now initial width 65535 (length input.now) ≡ 0 }
    ensures { Answered (lent cells.now initial width input.now) (Ok result) }
{
    let mut text = [0u8; 0];
    let mut issues = [0u32; 0];
    let counts = decode_read::read(cells, initial, width, input, &mut text, &mut issues);
    Measured {
        text: counts.text,
        issues: counts.issues,
        charged: counts.charged,
    }
}

/// How much buffer the decoding of a string of the eight-unit code needs, and its charge, or the first question that fails.
/// The options are as wide as a C caller's: question 2 asks them of `arib_measure` too.
pub fn measure(cells: &[u16], initial: u32, width: u32, input: &[u8]) -> Result<Measured, Refusal>
    ensures { Answered (lent cells.now initial width input.now) result }
{
    questions::first(cells, initial, width, questions::DECODE_LIMIT, input.len())?;
    Ok(measure_checked(cells, initial, width, input))
}
