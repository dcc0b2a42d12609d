// The key call: the key of what a title's bytes decode to, or the number of the first question that fails. 01, "Keys" and
// "The questions, put in this order", and request 6, "Private-use characters".
#![tactic(auto)]

ghost use Rattle.std.specs.Prelude.{◌≡◌, ◌≤◌, length};
ghost use Rattle.questions.specs.Questions.{first_refusal};
ghost use Rattle.questions.specs.Refusal.{number_of, place_of};
ghost use Rattle.decode.specs.Answers.{text_of};
ghost use Rattle.key.specs.Key.{Lent, question_of};
ghost use Rattle.key.specs.Promises.{lent, Decodes, Answered, FromText};

use decode_read::Counts;
use questions::refusal::Refusal;

/// The numbers that issues may take: decoding then refuses where there is an issue.
const ISSUES: usize = 0;

/// What a title is keyed with: the key's bytes and the charge.
#[derive(Clone, Copy, Debug, PartialEq, Eq)]
pub struct Keyed {
    pub len: usize,
    pub charged: usize,
}

/// A decoding's refusal as a key's.
fn question(refusal: Refusal) -> Refusal
    ensures number { number_of result ≡ question_of (number_of refusal) }
    ensures place { place_of result ≡ place_of refusal }
{
    match refusal {
        Refusal::IssuesTooMany => Refusal::HasIssues,
        other => other,
    }
}

/// The key of a text that was decoded into the buffer. One with private-use characters is refused.
fn from_text(decoded: Counts, buffer: &mut [u8]) -> Result<Keyed, Refusal>
    requires { decoded.text ≤ length buffer.old }
    ensures { FromText decoded buffer.old result buffer.new }
{
    if decoded.private_use > 0 {
        questions::clear(buffer, 0);
        return Err(Refusal::PrivateUse);
    }
    Ok(Keyed {
        len: key_text::remove(&mut buffer[..decoded.text]),
        charged: decoded.charged,
    })
}

/// The key of what was decoded into the buffer.
fn finish(answer: Result<Counts, Refusal>, buffer: &mut [u8]) -> Result<Keyed, Refusal>
    requires { text_of answer ≤ length buffer.old }
    ensures { (c : Lent) → Decodes c answer buffer.old → Answered c result buffer.new }
{
    match answer {
        Ok(decoded) => from_text(decoded, buffer),
        Err(refusal) => Err(question(refusal)),
    }
}

/// The key where questions 1 to 3 were put and passed: for whoever reads many titles with one cell table.
pub fn key_checked(
    cells: &[u16],
    initial: u32,
    width: u32,
    input: &[u8],
    buffer: &mut [u8],
) -> Result<Keyed, Refusal>
    requires { first_refusal cells.now initial width 65535 (length input.now) ≡ 0 }
    ensures { Answered (lent cells.now initial width input.now buffer.old) result buffer.new }
{
    let mut issues = [0u32; ISSUES];
    let r = decode::call::decode_checked(cells, initial, width, input, buffer, &mut issues);
    finish(r, buffer)
}

/// The key of a string of the eight-unit code, or the first question that fails. The options are as wide as a C caller's:
/// question 2 asks them of `arib_key` too.
pub fn key(
    cells: &[u16],
    initial: u32,
    width: u32,
    input: &[u8],
    buffer: &mut [u8],
) -> Result<Keyed, Refusal>
    ensures { Answered (lent cells.now initial width input.now buffer.old) result buffer.new }
{
    let mut issues = [0u32; ISSUES];
    let r = decode::call::decode_with(cells, initial, width, input, buffer, &mut issues);
    finish(r, buffer)
}
