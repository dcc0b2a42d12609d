// Why a call is refused: the first question that it fails. A refusal has the question's number and a place in the input.
ghost use Rattle.std.specs.Prelude.{◌≡◌};
ghost use Rattle.questions.specs.Refusal.{number_of, place_of};

use std::error::Error;
use std::fmt;

/// The first question that a call fails.
#[derive(Clone, Copy, Debug, PartialEq, Eq, Hash)]
pub enum Refusal {
    /// 1: the cell table has another length, a surrogate, or a character in a row that is to be empty.
    CellTable,
    /// 2: an option is neither 0 nor 1.
    Options,
    /// 3: the input is too long.
    TooLong,
    /// 4: the text is no UTF-8 from the place on.
    IllFormed(usize),
    /// 5: the mark at the place has no base.
    NoBase(usize),
    /// 6: the character at the place has no code.
    Unencodable(usize),
    /// 7: the search needs more store.
    StoreTooSmall,
    /// 8: the buffer is too small.
    BufferTooSmall,
    /// 9: the buffer of issues is too small.
    IssuesTooMany,
    /// 10: the title does not read without issue.
    HasIssues,
    /// 11: the title's text has a private-use character.
    PrivateUse,
    /// 12: the catalogue's form is another, the number to add is present, or that to remove is absent.
    CatalogueMismatch,
    /// 13: the key to add has more than 255 bytes.
    KeyTooLong,
    /// 14: the catalogue has 1,024 entries.
    CatalogueFull,
    /// 15: the bookmarks' form is another, or the name is above 15 or not set, or its input another.
    BookmarkMismatch,
    /// 16: no bookmark can stand at the place.
    BookmarkPlace,
}

impl Refusal {
    /// The number of the question.
    pub fn number(self) -> u32
        ensures { result ≡ number_of self }
    {
        match self {
            Refusal::CellTable => 1,
            Refusal::Options => 2,
            Refusal::TooLong => 3,
            Refusal::IllFormed(_) => 4,
            Refusal::NoBase(_) => 5,
            Refusal::Unencodable(_) => 6,
            Refusal::StoreTooSmall => 7,
            Refusal::BufferTooSmall => 8,
            Refusal::IssuesTooMany => 9,
            Refusal::HasIssues => 10,
            Refusal::PrivateUse => 11,
            Refusal::CatalogueMismatch => 12,
            Refusal::KeyTooLong => 13,
            Refusal::CatalogueFull => 14,
            Refusal::BookmarkMismatch => 15,
            Refusal::BookmarkPlace => 16,
        }
    }

    /// The place, 0 where the question has none.
    pub fn place(self) -> usize
        ensures { result ≡ place_of self }
    {
        match self {
            Refusal::IllFormed(place) => place,
            Refusal::NoBase(place) => place,
            Refusal::Unencodable(place) => place,
            Refusal::CellTable => 0,
            Refusal::Options => 0,
            Refusal::TooLong => 0,
            Refusal::StoreTooSmall => 0,
            Refusal::BufferTooSmall => 0,
            Refusal::IssuesTooMany => 0,
            Refusal::HasIssues => 0,
            Refusal::PrivateUse => 0,
            Refusal::CatalogueMismatch => 0,
            Refusal::KeyTooLong => 0,
            Refusal::CatalogueFull => 0,
            Refusal::BookmarkMismatch => 0,
            Refusal::BookmarkPlace => 0,
        }
    }
}

impl fmt::Display for Refusal {
    fn fmt<W: fmt::Write>(&self, f: &mut fmt::Formatter<W>) -> fmt::Result {
        f.write_str(match self {
            Refusal::CellTable => "the numbers are no cell table",
            Refusal::Options => "an option is neither 0 nor 1",
            Refusal::TooLong => "the input is too long",
            Refusal::IllFormed(_) => "the text is no UTF-8",
            Refusal::NoBase(_) => "a mark has no base",
            Refusal::Unencodable(_) => "a character has no code",
            Refusal::StoreTooSmall => "the store is too small",
            Refusal::BufferTooSmall => "the buffer is too small",
            Refusal::IssuesTooMany => "the buffer of issues is too small",
            Refusal::HasIssues => "the title does not read without issue",
            Refusal::PrivateUse => "the title's text has a private-use character",
            Refusal::CatalogueMismatch => "the catalogue does not match the call",
            Refusal::KeyTooLong => "the key has more than 255 bytes",
            Refusal::CatalogueFull => "the catalogue has 1,024 entries",
            Refusal::BookmarkMismatch => "the bookmarks do not match the call",
            Refusal::BookmarkPlace => "no bookmark can stand at the place",
        })
    }
}

impl Error for Refusal {}
