// `measure` on the calls of `decode.bin`, held to what decoding answers: the counts where it is accepted, and more than
// the buffers hold where it is refused with 8 or 9.
use crate::case::{DecodingCase, same_refusal};
use issues::NUMBERS;
use measure::Measured;
use questions::refusal::Refusal;

/// Whether the decoding was accepted with these counts.
fn same_counts(measured: Measured, case: DecodingCase) -> bool {
    (case.number == 0)
        & (measured.text == case.text)
        & (measured.issues == case.issues)
        & (measured.charged == case.charged)
}

/// Whether it was refused since so much does not fit.
fn too_much(measured: Measured, case: DecodingCase) -> bool {
    if measured.text > case.text_room {
        return case.number == 8;
    }
    (case.number == 9) & (measured.issues > case.issue_room / NUMBERS)
}

/// Whether the answer is the decoding's.
fn same_answer(answer: Result<Measured, Refusal>, case: DecodingCase) -> bool {
    match answer {
        Ok(measured) => same_counts(measured, case) | too_much(measured, case),
        Err(refusal) => same_refusal(refusal, case),
    }
}

/// One call.
pub fn same(case: DecodingCase, cells: &[u16], input: &[u8]) -> bool {
    same_answer(
        measure::measure(cells, case.initial, case.width, input),
        case,
    )
}
