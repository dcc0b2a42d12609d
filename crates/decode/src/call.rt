// The decoding call: the questions in order, and every byte of both buffers.
ghost use Rattle.std.specs.Prelude.{◌≡◌, List, ℕ, ◌≤◌, length};
ghost use Rattle.questions.specs.Questions.{first_refusal};
ghost use Rattle.reading.specs.State.{State};
ghost use Rattle.reading.specs.Call.{escape_part};
ghost use Rattle.decode_read.specs.Promises.{Counted};
ghost use Rattle.decode.specs.Answers.{lent, Refuses, Answers, Answered};

use decode_read::Counts;
use issues::NUMBERS;
use questions::refusal::Refusal;

/// Refuses: both buffers are filled with zero.
pub fn refuse(refusal: Refusal, text: &mut [u8], issues: &mut [u32]) -> Result<Counts, Refusal>
    ensures { Refuses refusal text.old issues.old result text.new issues.new }
{
    questions::clear(text, 0);
    questions::clear(issues, 0);
    Err(refusal)
}

/// What was counted and written, as the answer: too little room for the text or the issues is refused, else what is
/// left of the buffers is zero.
pub fn finish(counts: Counts, text: &mut [u8], issues: &mut [u32]) -> Result<Counts, Refusal>
    requires { counts.issues ≤ 0x10000000000 }
    ensures { (s : State) (t₀ i₀ : List ℕ) → Counted s t₀ i₀ counts text.old issues.old →
        Answers s (length t₀) (length i₀) result text.new issues.new }
{
    let n = counts.text;
    let k = counts.issues;
    if n > text.len() {
        return refuse(Refusal::BufferTooSmall, text, issues);
    }
    if k * NUMBERS > issues.len() {
        return refuse(Refusal::IssuesTooMany, text, issues);
    }
    questions::clear(text, n);
    questions::clear(issues, k * NUMBERS);
    Ok(counts)
}

/// Decodes where questions 1 to 3 were put and passed: for whoever reads many strings with one cell
/// table.
pub fn decode_checked(
    cells: &[u16],
    initial: u32,
    width: u32,
    input: &[u8],
    text: &mut [u8],
    issues: &mut [u32],
) -> Result<Counts, Refusal>
    requires { first_refusal cells.now initial width 65535 (length input.now) ≡ 0 }
    ensures { Answered (lent cells.now initial width input.now text.old issues.old) result text.new issues.new }
{
    let counts = decode_read::read(cells, initial, width, input, text, issues);
    finish(counts, text, issues)
}

/// Decodes a string of the eight-unit code: the text's bytes, the issues, the charge and the private-use characters, or the
/// first question that fails. The options are as wide as a C caller's: question 2 asks them of `arib_decode` too.
pub fn decode_with(
    cells: &[u16],
    initial: u32,
    width: u32,
    input: &[u8],
    text: &mut [u8],
    issues: &mut [u32],
) -> Result<Counts, Refusal>
    ensures { Answered (lent cells.now initial width input.now text.old issues.old) result text.new issues.new }
{
    match questions::first(cells, initial, width, questions::DECODE_LIMIT, input.len()) {
        Ok(()) => decode_checked(cells, initial, width, input, text, issues),
        Err(refusal) => refuse(refusal, text, issues),
    }
}

/// The part of the input that an unknown escape is; a start and length that leave the input get the
/// empty part at its beginning. What is promised are the part's bytes: no contract can say where a
/// part lies in a slice. `arib_unknown_escape` says where, `escape_start` of `text_counts`.
pub fn unknown_escape(input: &[u8], start: usize, len: usize) -> &[u8]
    ensures { result.now ≡ escape_part input.now start len }
{
    if start > input.len() {
        return &input[0..0];
    }
    if len > input.len() - start {
        return &input[0..0];
    }
    let end = start + len;
    &input[start..end]
}
