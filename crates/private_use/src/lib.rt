// Private-use characters: the Private Use Area of the Basic Multilingual Plane. The Unicode Standard, 23.5.
#![tactic(auto)]

ghost use Rattle.std.specs.Prelude.{◌≡◌};
ghost use Rattle.private_use.specs.PrivateUse.{is_private_use};

/// Whether a character is one.
pub fn is_private_use(c: u32) -> bool
    ensures { result ≡ is_private_use c }
{
    match c {
        0xE000..=0xF8FF => true,
        _ => false,
    }
}
