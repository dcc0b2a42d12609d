// The coder's state in one number, and how a character was written in another: encode.rs, `State`
// and what it pushes. A set is a code of three bits: specs/Packed.antt.
#![tactic(auto)]

ghost use Rattle.std.specs.Prelude.{◌≡◌, ◌+◌, ◌*◌, ◌/◌, ◌%◌, ◌<◌, cond, eqb, length};
ghost use Rattle.sets.specs.Sets.{designation};
ghost use Rattle.coding.specs.State.{start, set_in, designate, invoke_gl, invoke_gr, resize, lock_gl};
ghost use Rattle.encode_states.specs.Packed.{set_of, unpack, Proper, Packs, Codes, Element};

/// The start: Si (0) or Caption, the option of the C call.
pub fn start(initial: u32) -> u32
    ensures { Packs result (start initial) }
{
    if initial == 0 { 2672 } else { 2768 }
}

/// The code of the set in the code element n.
pub fn set_in(a: u32, n: u32) -> u32
    requires { Proper a × (n < 4) }
    ensures { Codes result (set_in (unpack a) n) }
{
    (a >> (14 - 3 * n)) % 8
}

/// The code element in GL.
pub fn gl(a: u32) -> u32
    ensures { Element result (unpack a).gl }
{
    a / 2 % 4
}

/// The code element in GR.
pub fn gr(a: u32) -> u32
    ensures { Element result (unpack a).gr }
{
    a / 8 % 4
}

/// Whether the size is narrow.
pub fn narrow(a: u32) -> bool
    ensures { result ≡ eqb (unpack a).narrow 1 }
{
    a % 2 == 1
}

/// The set of code x is designated to the code element n.
pub fn designate(a: u32, n: u32, x: u32) -> u32
    requires { Proper a × (n < 4) × (x < 6) }
    ensures { Packs result (designate (unpack a) n (set_of x)) }
{
    let k = 14 - 3 * n;
    let old = (a >> k) % 8;
    a - (old << k) + (x << k)
}

/// The code element n is invoked in GL.
pub fn to_gl(a: u32, n: u32) -> u32
    requires { Proper a × (n < 4) }
    ensures { Packs result (invoke_gl (unpack a) n) }
{
    a / 8 * 8 + (n * 2 + a % 2)
}

/// The code element n is invoked in GR. No twin of `to_gl`: other bits change, and another definition
/// says how.
pub fn to_gr(a: u32, n: u32) -> u32
    requires { Proper a × (n < 4) }
    ensures { Packs result (invoke_gr (unpack a) n) }
{
    a / 32 * 32 + (n * 8 + a % 8)
}

/// The size becomes narrow or wide.
pub fn resize(a: u32, narrow: bool) -> u32
    requires { Proper a }
    ensures { Packs result (resize (unpack a) (cond narrow 1 0)) }
{
    a / 2 * 2 + narrow as u32
}

/// The bytes of the designation of a candidate's set, by its code, to the code element n.
pub fn designation_length(x: u32, n: u32) -> u32
    requires { x < 6 }
    ensures { result ≡ length (designation (set_of x) n) }
{
    if n == 0 {
        return 3;
    }
    if x == 0 {
        return 4;
    }
    if x == 5 {
        return 4;
    }
    3
}

/// The bytes of the locking shift of the code element n to GL.
pub fn lock_length(n: u32) -> u32
    ensures { result ≡ length (lock_gl n) }
{
    if n < 2 { 1 } else { 2 }
}
