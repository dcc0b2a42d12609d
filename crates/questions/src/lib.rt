// What every public call shares: the first three of the questions, which concern the cell table, the options and the
// length of the input, and the zeros past a result.
#![tactic(auto)]

pub mod refusal;

ghost use Rattle.std.specs.Prelude.{◌≡◌};
ghost use Rattle.questions.specs.Questions.{all, scalar, zero?, cells_hold, options_hold, first_refusal};
ghost use Rattle.questions.specs.Refusal.{refused, refused_at};
ghost use Rattle.questions.specs.Buffer.{cleared_to};

use refusal::Refusal;

/// The most bytes that decoding and a key take.
pub const DECODE_LIMIT: usize = 65535;

/// The most bytes of text that coding takes.
pub const ENCODE_LIMIT: usize = 7281;

/// The cell table has 94 rows of 94 cells.
pub const CELLS: usize = 8836;

/// Whether a cell is no surrogate.
#[tactic(auto, using(crate::proofs::CellTable::scalar_is))]
fn is_scalar(x: u16) -> bool
    ensures { result ≡ scalar x }
{
    x / 0x800 != 0x1B
}

/// Whether no cell of a part of the table is a surrogate, D800 to DFFF. It is a `fold`, with no early way out, so that
/// eight cells are tested at a time; so is `empty`.
fn scalars(t: &[u16]) -> bool
    ensures { result ≡ all scalar t.now }
{
    t.iter().fold(true, |good, x| good & is_scalar(*x))
}

/// Whether every cell of a part of the table is zero.
fn empty(t: &[u16]) -> bool
    ensures { result ≡ all zero? t.now }
{
    t.iter().fold(0u16, |bits, x| bits | *x) == 0
}

/// Question 1. Rows 9 to 15 are the cells from 752 to 1409, rows 85 to 94 those from 7896 on: what is zero there is no
/// surrogate, so `scalars` reads the other rows only.
pub fn cells(t: &[u16]) -> bool
    ensures { result ≡ cells_hold t.now }
{
    if t.len() != CELLS {
        return false;
    }
    scalars(&t[..752]) & empty(&t[752..1410]) & scalars(&t[1410..7896]) & empty(&t[7896..CELLS])
}

/// Question 2: Si or Caption, CharacterSize or AnnexE. The options are as wide as a C caller's, so that 256 is not 0.
pub fn options(initial: u32, width: u32) -> bool
    ensures { result ≡ options_hold initial width }
{
    (initial <= 1) & (width <= 1)
}

/// The first of questions 1, 2 and 3 that is answered no, as a refusal.
#[tactic(auto, unfolding(crate::specs::Questions::first_refusal))]
pub fn first(t: &[u16], initial: u32, width: u32, limit: usize, len: usize) -> Result<(), Refusal>
    ensures number { refused result ≡ first_refusal t.now initial width limit len }
    ensures place { refused_at result ≡ 0 }
{
    if !cells(t) {
        return Err(Refusal::CellTable);
    }
    if !options(initial, width) {
        return Err(Refusal::Options);
    }
    if limit < len {
        return Err(Refusal::TooLong);
    }
    Ok(())
}

/// The numbers of lent buffers: bytes of text and key, and the numbers of issues and store.
pub trait Zero: Copy {
    ghost ZERO: { Self };

    const ZERO: Self;

    // A copy is the same number: what `fill` asks.
    ghost copied: { (x : Self) → Self.is_infallible x × ((y : Self) → Self.is_clone x y → y ≡ x) };
}

impl Zero for u8 {
    ghost ZERO = { 0 };

    const ZERO: u8 = 0;

    ghost copied = { λ _. (tt, λ _ e. e) };
}

impl Zero for u32 {
    ghost ZERO = { 0 };

    const ZERO: u32 = 0;

    ghost copied = { λ _. (tt, λ _ e. e) };
}

/// Zeros in `d` from `from` on.
pub fn clear<T: Zero>(d: &mut [T], from: usize)
    ensures { d.new ≡ cleared_to T.ZERO d.old from }
{
    if from < d.len() {
        d[from..].fill(T::ZERO);
    }
}
