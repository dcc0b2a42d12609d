// `IssueKind` of decode.rs: what could not be represented exactly. The decoder writes an issue as
// `NUMBERS` numbers: its offset, the three of `numbers`, and its position in the text.
#![tactic(auto)]

ghost use Rattle.std.specs.Prelude.{◌≡◌};
ghost use Rattle.issues.specs.Issue.{numbers_of};

/// Kinds of decoding problems, in the Rust's order. A set is 01's number of it, a code the GL form
/// (two bytes as 16 bits).
#[derive(Clone, Copy, Debug, PartialEq, Eq)]
pub enum IssueKind {
    /// An escape sequence that Tables 7-1 to 7-3 do not list: its start in the input and its length.
    UnknownEscape { start: u32, len: u32 },
    /// A C0 or C1 code that Table 7-14 leaves blank, or 10/0, or 15/15.
    UndefinedControl(u8),
    /// A control code whose parameters do not fit Tables 7-15 to 7-17.
    MalformedControl(u8),
    /// The input, or a body, ended inside a code or a macro's definition, or a two-byte character's second byte was not
    /// in the half of its first.
    Truncated,
    /// A code that is blank in its set's table.
    UndefinedCode { set: u8, code: u16 },
    /// A code of a set whose repertoire is not mapped.
    UnsupportedCode { set: u8, code: u16 },
    /// A character of DRCS-n.
    Drcs { n: u8, code: u16 },
    /// A mosaic character: nothing is written.
    Mosaic { set: u8, code: u8 },
    /// A macro code with no body.
    UndefinedMacro(u8),
    /// A body that would be open too deep or charge too much.
    MacroLimit,
    /// SS2 or SS3 with no graphic character behind it.
    LoneSingleShift,
    /// Non-spacing characters with no character to combine with.
    DanglingNonSpacing,
    /// RPC with count 0.
    RepeatToEndOfLine,
}

/// How many numbers an issue is: its offset, its kind, two fields, and its position.
pub const NUMBERS: usize = 5;

/// Those beside the offset and the position: the kind, 1 to 13, and two fields, 0 where unused.
#[derive(Clone, Copy, Debug, PartialEq, Eq)]
pub struct Numbers {
    pub kind: u32,
    pub first: u32,
    pub second: u32,
}

impl IssueKind {
    pub fn numbers(self) -> Numbers
        ensures { result ≡ numbers_of self }
    {
        let (kind, first, second) = match self {
            IssueKind::UnknownEscape { start, len } => (1, start, len),
            IssueKind::UndefinedControl(code) => (2, u32::from(code), 0),
            IssueKind::MalformedControl(code) => (3, u32::from(code), 0),
            IssueKind::Truncated => (4, 0, 0),
            IssueKind::UndefinedCode { set, code } => (5, u32::from(set), u32::from(code)),
            IssueKind::UnsupportedCode { set, code } => (6, u32::from(set), u32::from(code)),
            IssueKind::Drcs { n, code } => (7, u32::from(n), u32::from(code)),
            IssueKind::Mosaic { set, code } => (8, u32::from(set), u32::from(code)),
            IssueKind::UndefinedMacro(code) => (9, u32::from(code), 0),
            IssueKind::MacroLimit => (10, 0, 0),
            IssueKind::LoneSingleShift => (11, 0, 0),
            IssueKind::DanglingNonSpacing => (12, 0, 0),
            IssueKind::RepeatToEndOfLine => (13, 0, 0),
        };
        Numbers {
            kind,
            first,
            second,
        }
    }
}
