// `clean` on the calls of `decode.bin`, held to what decoding answers: issues or none, and 9 where there are some.
use crate::case::{DecodingCase, same_refusal};
use questions::refusal::Refusal;

/// Whether the answer is the decoding's. A text that does not fit, 8, says nothing of issues; the corners among these
/// stand in the list in greater rooms too.
fn same_answer(answer: Result<bool, Refusal>, case: DecodingCase) -> bool {
    let accepted = case.number == 0;
    let short = case.number == 8;
    match answer {
        Ok(true) => short | (accepted & (case.issues == 0)),
        Ok(false) => short | (case.number == 9) | (accepted & (case.issues > 0)),
        Err(refusal) => same_refusal(refusal, case),
    }
}

/// One call.
pub fn same(case: DecodingCase, cells: &[u16], input: &[u8]) -> bool {
    same_answer(clean::clean(cells, case.initial, case.width, input), case)
}
