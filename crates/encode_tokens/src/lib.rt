// The text's characters in the order in which they are coded: encode.rs, "Tokenise", with questions 4, 5 and 6.
#![tactic(auto)]

ghost use Rattle.std.specs.Prelude.{◌≡◌, false};
ghost use Rattle.coding.specs.Tokens.{tokens, baseless};
ghost use Rattle.encode_tokens.specs.Promises.{ArraysFit, Tokenised};
ghost use Rattle.encode_tokens.specs.Steps.{place_of_mark, Orders, Appended, Ordering};

use questions::refusal::Refusal;
use utf8::Sequence;

/// A character, with its cells of the Kanji set and of the additional symbols, 0 where it has none.
#[derive(Clone, Copy, Debug, Default, PartialEq, Eq)]
pub struct Character {
    pub char: u32,
    pub kanji: u16,
    pub symbol: u16,
}

/// What questions 4 to 6 leave, where all are answered yes: how many characters there are, and the sum of their shortest
/// codes.
#[derive(Clone, Copy, Debug, PartialEq, Eq)]
pub struct Ordered {
    pub count: usize,
    pub rest: usize,
}

/// A character, and its place in the text.
#[derive(Clone, Copy, Debug, PartialEq, Eq)]
struct Token {
    char: u32,
    place: usize,
}

/// A character that is coded next, and the base that then waits for its marks.
#[derive(Clone, Copy, Debug, PartialEq, Eq)]
struct Next {
    coded: Token,
    base: Token,
}

/// Question 5: where the first mark stands that has no base after the last newline, if one does.
fn baseless(text: &[u8]) -> Option<usize>
    ensures { result ≡ place_of_mark (baseless false (tokens text.now)) }
{
    let mut base = false;
    let mut at = 0;
    while let Sequence::Scalar(c, size) = utf8::read(text, at) {
        if tables::is_non_spacing(c).mark {
            if !base {
                return Some(at);
            }
        } else {
            base = c != 0x0A;
        }
        at += size;
    }
    None
}

/// What is coded next where a base waits and a character follows: a mark, or the base, in whose place the character then
/// waits.
fn order(base: Token, next: Token) -> Next
    ensures { Orders base next result }
{
    if tables::is_non_spacing(next.char).mark {
        return Next { coded: next, base };
    }
    Next {
        coded: base,
        base: next,
    }
}

/// Puts a character in its place, with its cells, and answers the bytes of its shortest code, if it has a candidate.
fn append(t: &[u16], annex: bool, c: u32, place: &mut Character) -> Option<usize>
    ensures { Appended t.now annex c place.new result }
{
    let kanji = encode_candidates::pack(tables_reverse::kanji_reverse(t, c));
    let symbol = encode_candidates::pack(tables_reverse::additional_reverse(c));
    *place = Character {
        char: c,
        kanji,
        symbol,
    };
    match encode_candidates::shortest(encode_candidates::candidates(
        c, kanji, symbol, annex,
    ).as_slice())
    {
        0 => None,
        code => Some(code),
    }
}

/// Writes a text's characters to the array, each mark before its base, up to the first that has no candidate: question 6.
fn in_order(
    t: &[u16],
    annex: bool,
    text: &[u8],
    characters: &mut [Character],
) -> Result<Ordered, Refusal>
    requires { ArraysFit text.now characters.old }
    ensures { Ordering t.now annex text.now result characters.new }
{
    let Sequence::Scalar(head, width) = utf8::read(text, 0) else {
        return Ok(Ordered { count: 0, rest: 0 });
    };
    let mut base = Token {
        char: head,
        place: 0,
    };
    let mut at = width;
    let mut count = 0;
    let mut rest = 0;
    while let Sequence::Scalar(c, size) = utf8::read(text, at) {
        let next = order(base, Token { char: c, place: at });
        let Some(code) = append(t, annex, next.coded.char, &mut characters[count]) else {
            return Err(Refusal::Unencodable(next.coded.place));
        };
        base = next.base;
        at += size;
        count += 1;
        rest += code;
    }
    let Some(code) = append(t, annex, base.char, &mut characters[count]) else {
        return Err(Refusal::Unencodable(base.place));
    };
    Ok(Ordered {
        count: count + 1,
        rest: rest + code,
    })
}

/// Puts questions 4, 5 and 6 to a text and writes its characters to the lent array in the order in which they are coded.
pub fn tokenise(
    t: &[u16],
    annex: bool,
    text: &[u8],
    characters: &mut [Character],
) -> Result<Ordered, Refusal>
    requires { ArraysFit text.now characters.old }
    ensures { Tokenised t.now annex text.now result characters.new }
{
    if let Some(place) = utf8::first_fault(text) {
        return Err(Refusal::IllFormed(place));
    }
    if let Some(place) = baseless(text) {
        return Err(Refusal::NoBase(place));
    }
    in_order(t, annex, text, characters)
}
