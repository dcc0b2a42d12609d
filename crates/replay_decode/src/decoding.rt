// `decode.bin` against `decode_with`: the number, the place, the counts, and every element of both
// buffers, which hold a pattern before the call. `measure` and `clean` are held to the same answer.
ghost use Rattle.std.specs.Prelude.{◌≤◌, length};

use decode_read::Counts;
use issues::NUMBERS;
use questions::refusal::Refusal;
use replay_decode_cases::case::{DecodingCase, case_at};
use replay_decode_cases::{cleaning, measuring};
use replay_vectors::buffers::{byte_room, number_room, same_bytes, same_numbers};
use replay_vectors::compared::Compared;
use replay_vectors::numbers::count;
use replay_vectors::tally::Tally;

/// The number, the place and the counts.
fn same_answer(answer: Result<Counts, Refusal>, case: DecodingCase) -> bool {
    match answer {
        Ok(counts) => {
            (case.number == 0)
                & (case.place == 0)
                & (counts.text == case.text)
                & (counts.issues == case.issues)
                & (counts.charged == case.charged)
                & (counts.private_use == case.private_use)
        }
        Err(refusal) => {
            (refusal.number() == case.number)
                & (refusal.place() == case.place)
                & (case.text == 0)
                & (case.issues == 0)
                & (case.charged == 0)
                & (case.private_use == 0)
        }
    }
}

/// One call, in the buffers that are lent, and without any.
fn same(
    case: DecodingCase,
    cells: &[u16],
    input: &[u8],
    text: &[u8],
    issues: &[u8],
    bytes: &mut [u8],
    numbers: &mut [u32],
) -> bool {
    let answer = decode::call::decode_with(cells, case.initial, case.width, input, bytes, numbers);
    same_answer(answer, case)
        & same_bytes(bytes, text)
        & same_numbers(numbers, issues)
        & measuring::same(case, cells, input)
        & cleaning::same(case, cells, input)
}

/// One call, in buffers of the stated lengths.
fn same_in_rooms(
    case: DecodingCase,
    cells: &[u16],
    input: &[u8],
    text: &[u8],
    issues: &[u8],
) -> bool {
    let mut bytes = byte_room();
    let mut numbers = number_room();
    let n = case.text_room;
    let k = case.issue_room;
    if n > 4096 {
        return false;
    }
    if k > 65536 {
        return false;
    }
    same(
        case,
        cells,
        input,
        text,
        issues,
        &mut bytes[..n],
        &mut numbers[..k],
    )
}

/// One call, with the case's table.
fn same_by_table(
    case: DecodingCase,
    cells: &[u16],
    input: &[u8],
    text: &[u8],
    issues: &[u8],
) -> bool {
    if case.table == 0 {
        return same_in_rooms(case, cells, input, text, issues);
    }
    let zeros = [0u16; 8836];
    same_in_rooms(case, &zeros, input, text, issues)
}

/// The bytes of an issue in the file: four a number.
const ISSUE: usize = 4 * NUMBERS;

/// The case at a place.
fn compare(file: &[u8], at: usize, cells: &[u16]) -> Compared
    requires { at ≤ length file.now }
    ensures { result.next ≤ length file.now }
{
    let case = case_at(&file[at..]);
    let input = at + 48;
    let text = input + case.input;
    let issues = text + case.text;
    let next = issues + ISSUE * case.issues;
    if next > file.len() {
        return Compared {
            next: 0,
            same: false,
        };
    }
    Compared {
        next,
        same: same_by_table(
            case,
            cells,
            &file[input..text],
            &file[text..issues],
            &file[issues..next],
        ),
    }
}

/// All cases. A file that ends early or late counts as one more that differs.
pub fn replay(file: &[u8], cells: &[u16]) -> Tally {
    let cases = count(file, 0);
    let mut tally = Tally::none();
    let mut at = 4;
    if file.len() < at {
        return Tally::one(false);
    }
    for _ in 0..cases {
        let compared = compare(file, at, cells);
        tally = tally.plus(Tally::one(compared.same));
        at = compared.next;
        if at == 0 {
            break;
        }
    }
    if at != file.len() {
        return tally.plus(Tally::one(false));
    }
    tally
}
