// The C0 and C1 control codes of the eight-unit code (Tables 7-14 to 7-17), and the parameter bytes that follow them.
#![tactic(auto)]

ghost use Rattle.std.specs.Prelude.{◌≡◌};
ghost use Rattle.control.specs.Controls.{name_of, count_of, params_of};

/// Null. Table 7-15.
pub const NUL: u8 = 0x00;
/// Bell. Table 7-15.
pub const BEL: u8 = 0x07;
/// Active position backward. Table 7-15.
pub const APB: u8 = 0x08;
/// Active position forward. Table 7-15.
pub const APF: u8 = 0x09;
/// Active position down. Table 7-15.
pub const APD: u8 = 0x0A;
/// Active position up. Table 7-15.
pub const APU: u8 = 0x0B;
/// Clear screen. Table 7-15.
pub const CS: u8 = 0x0C;
/// Active position return. Table 7-15.
pub const APR: u8 = 0x0D;
/// Locking shift 1. Table 7-1.
pub const LS1: u8 = 0x0E;
/// Locking shift 0. Table 7-1.
pub const LS0: u8 = 0x0F;
/// Parameterized active position forward: P1. Table 7-15.
pub const PAPF: u8 = 0x16;
/// Cancel. Table 7-15.
pub const CAN: u8 = 0x18;
/// Single shift 2. Table 7-1.
pub const SS2: u8 = 0x19;
/// Escape. Table 7-1.
pub const ESC: u8 = 0x1B;
/// Active position set: P1 P2. Table 7-15.
pub const APS: u8 = 0x1C;
/// Single shift 3. Table 7-1.
pub const SS3: u8 = 0x1D;
/// Record separator. Table 7-15.
pub const RS: u8 = 0x1E;
/// Unit separator. Table 7-15.
pub const US: u8 = 0x1F;
/// Space. Table 7-14.
pub const SP: u8 = 0x20;
/// Delete. Table 7-14.
pub const DEL: u8 = 0x7F;
/// Foreground black; the codes up to WHF are the other colours. Table 7-16.
pub const BKF: u8 = 0x80;
/// Foreground white. Table 7-16.
pub const WHF: u8 = 0x87;
/// Small size. Table 7-16.
pub const SSZ: u8 = 0x88;
/// Middle size. Table 7-16.
pub const MSZ: u8 = 0x89;
/// Normal size. Table 7-16.
pub const NSZ: u8 = 0x8A;
/// Character size controls: P1. Table 7-16.
pub const SZX: u8 = 0x8B;
/// Colour controls: P1, or 02/0 P2. Table 7-16.
pub const COL: u8 = 0x90;
/// Flashing control: P1. Table 7-16.
pub const FLC: u8 = 0x91;
/// Conceal display controls: P1, or 02/0 P2. Table 7-16.
pub const CDC: u8 = 0x92;
/// Pattern polarity controls: P1. Table 7-16.
pub const POL: u8 = 0x93;
/// Writing mode modification: P1. Table 7-16.
pub const WMM: u8 = 0x94;
/// Macro command: P1, and a definition after 04/0 or 04/1. Table 7-16.
pub const MACRO: u8 = 0x95;
/// Highlighting character block: P1. Table 7-16.
pub const HLC: u8 = 0x97;
/// Repeat character: P1. Table 7-16.
pub const RPC: u8 = 0x98;
/// Stop lining. Table 7-16.
pub const SPL: u8 = 0x99;
/// Start lining. Table 7-16.
pub const STL: u8 = 0x9A;
/// Control sequence introducer. Tables 7-16 and 7-17.
pub const CSI: u8 = 0x9B;
/// Time controls: 02/0 P2, 02/8 P2, or 02/9 up to F. Table 7-16.
pub const TIME: u8 = 0x9D;

/// The name of a C0 or C1 code; empty for the blanks of Table 7-14.
#[tactic(auto, unfolding(crate::specs::Controls::name_of))]
pub fn name(code: u8) -> &'static str
    ensures { result.now ≡ name_of code }
{
    match code {
        NUL => "NUL",
        BEL => "BEL",
        APB => "APB",
        APF => "APF",
        APD => "APD",
        APU => "APU",
        CS => "CS",
        APR => "APR",
        LS1 => "LS1",
        LS0 => "LS0",
        PAPF => "PAPF",
        CAN => "CAN",
        SS2 => "SS2",
        ESC => "ESC",
        APS => "APS",
        SS3 => "SS3",
        RS => "RS",
        US => "US",
        SP => "SP",
        DEL => "DEL",
        BKF => "BKF",
        0x81 => "RDF",
        0x82 => "GRF",
        0x83 => "YLF",
        0x84 => "BLF",
        0x85 => "MGF",
        0x86 => "CNF",
        WHF => "WHF",
        SSZ => "SSZ",
        MSZ => "MSZ",
        NSZ => "NSZ",
        SZX => "SZX",
        COL => "COL",
        FLC => "FLC",
        CDC => "CDC",
        POL => "POL",
        WMM => "WMM",
        MACRO => "MACRO",
        HLC => "HLC",
        RPC => "RPC",
        SPL => "SPL",
        STL => "STL",
        CSI => "CSI",
        TIME => "TIME",
        _ => "",
    }
}

/// How many parameter bytes follow a code, where Tables 7-15 and 7-16 fix their number: not for COL, CDC, TIME, CSI, MACRO
/// and ESC, nor for a code that is not defined.
#[tactic(auto, unfolding(crate::specs::Controls::count_of))]
pub fn fixed_params(code: u8) -> Option<usize>
    ensures { params_of result ≡ count_of code }
{
    match code {
        NUL | BEL..=LS0 | CAN | SS2 | SS3..=SP | DEL => Some(0),
        BKF..=NSZ | SPL | STL => Some(0),
        PAPF | SZX | FLC | POL | WMM | HLC | RPC => Some(1),
        APS => Some(2),
        _ => None,
    }
}
