// A whole string, or the rest of one: every step, and the release of the marks that wait at its end. Decoding and measuring
// are this, with buffers and without.
#![tactic(auto)]

ghost use Rattle.std.specs.Prelude.{◌≡◌, ◌-◌, ◌≤◌, length};
ghost use Rattle.decode_outer.specs.Promises.{Outside};
ghost use Rattle.decode_read.specs.Promises.{ReadOn, Read};

use decode_state::Decoder;

/// What a reading comes to: the text's bytes, the issues, the charge and the private-use characters.
#[derive(Clone, Copy)]
pub struct Counts {
    pub text: usize,
    pub issues: usize,
    pub charged: usize,
    pub private_use: usize,
}

/// Reads on from the byte `from`. What does not fit a buffer is counted and not written.
pub fn rest(
    cells: &[u16],
    input: &[u8],
    from: usize,
    start: Decoder,
    text: &mut [u8],
    issues: &mut [u32],
) -> Counts
    requires from_in_bounds { from ≤ length input.now }
    requires outside { Outside input.now (length input.now - from) start }
    requires enough_value { (start.core.enough ≡ 0xFFFFFFFF) × (start.core.out.issues ≡ 0) × (start.core.out.end ≤ 4096) }
    ensures { ReadOn cells.now input.now from start text.old issues.old result text.new issues.new }
{
    let w = decode_outer::top(cells, input, from, input.len(), start, text, issues);
    let core = w.decoder.core;
    let out = core.out;
    let flushed = decode_output::flush_dangling(out, issues);
    let reported = flushed.issues as usize;
    let charged = core.charged as usize;
    let private_use = flushed.private_use as usize;
    Counts {
        text: flushed.len,
        issues: reported,
        charged,
        private_use,
    }
}

/// Reads a string. What does not fit a buffer is counted and not written.
pub fn read(
    cells: &[u16],
    initial: u32,
    width: u32,
    input: &[u8],
    text: &mut [u8],
    issues: &mut [u32],
) -> Counts
    requires { length input.now ≤ 65535 }
    ensures { Read cells.now initial width input.now text.old issues.old result text.new issues.new }
{
    let start = decode_state::start(initial, width, decode_state::UNBOUNDED);
    let none = decode_state::undefined(start);
    rest(cells, input, 0, none, text, issues)
}
