// The form of the lines that the program `listing` prints: from numbers and bytes to lines.
#![tactic(auto)]

ghost use Rattle.std.specs.Prelude.{◌+◌, ◌*◌, ◌≤◌, length};
ghost use Rattle.lent.specs.Put.{Put};
ghost use Rattle.ascii.specs.Promises.{Printed};
ghost use Rattle.issues.specs.Issue.{numbers};
ghost use Rattle.listing_form.specs.Lines.{first_line, issue_line, issue_lines, decoding_lines};
ghost use Rattle.listing_form.specs.Promises.{greatest};

use ascii::{decimal, hexadecimal, word};
use issues::NUMBERS;

/// The most issues that are printed, and the numbers that they have.
pub const ISSUES: usize = 256;

pub const ISSUE_ROOM: usize = ISSUES * NUMBERS;

/// The most bytes that are printed: specs/Promises.antt counts them.
pub const GREATEST: usize = 131110 + ISSUE_ROOM * 11;

/// Bytes of text, issues and charge.
fn first_line(out: &mut [u8], text: usize, issues: usize, charged: usize) -> usize
    ensures { Put out.old 0 (first_line text issues charged) out.new result }
{
    let mut at = word(out, 0, b"text ");
    at = decimal(out, at, text);
    at = word(out, at, b" issues ");
    at = decimal(out, at, issues);
    at = word(out, at, b" charged ");
    at = decimal(out, at, charged);
    word(out, at, b"\n")
}

/// The numbers of an issue.
fn issue_line(out: &mut [u8], at: usize, issue: &[u32]) -> usize
    requires { (at ≤ 0x80000) × (1 ≤ length issue.now) × (length issue.now ≤ 0x1000) }
    ensures put { Put out.old at (issue_line issue.now) out.new result }
    ensures upper_bound { result ≤ at + 21 * length issue.now }
{
    let mut next = decimal(out, at, issue[0] as usize);
    for i in 1..issue.len() {
        next = word(out, next, b" ");
        next = decimal(out, next, issue[i] as usize);
    }
    word(out, next, b"\n")
}

/// One line for each of k issues.
fn issue_lines(out: &mut [u8], at: usize, k: usize, issues: &[u32]) -> usize
    requires { (at ≤ 0x40000) × (k ≤ 256) × (k * numbers ≤ length issues.now) }
    ensures { Put out.old at (issue_lines k issues.now) out.new result }
{
    let mut next = at;
    for i in 0..k {
        let from = i * NUMBERS;
        next = issue_line(out, next, &issues[from..from + NUMBERS]);
    }
    next
}

/// The lines of a decoding: n bytes of text, k issues and the charge.
pub fn decoded(
    out: &mut [u8],
    n: usize,
    k: usize,
    charged: usize,
    text: &[u8],
    issues: &[u32],
) -> usize
    requires { (n ≤ 65536) × (k ≤ 256) × (charged ≤ 266240) × (length text.now ≤ 65536) × (k * numbers ≤ length issues.now) }
    ensures { Printed greatest out.old (decoding_lines n k charged text.now issues.now) out.new result }
{
    let mut at = first_line(out, n, k, charged);
    at = hexadecimal(out, at, text);
    at = word(out, at, b"\n");
    issue_lines(out, at, k, issues)
}
