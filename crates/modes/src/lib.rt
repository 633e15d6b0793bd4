// The caller's choices of how characters are looked up and placed. Each is a field; with every field false a call does
// what document 01 says.
#![tactic(auto)]

ghost use Rattle.std.specs.Prelude.{◌≡◌};
ghost use Rattle.modes.specs.Modes.{plain, is_known, mode_of};

// Taken by every call that looks a character up or draws or unpacks a placed glyph, after the font.
#[derive(Clone, Copy)]
pub struct Mode {
    // A code without a glyph is shown by the glyph of the font's default code, if that has one.
    pub default: bool,
}

// No choice made.
pub fn plain() -> Mode
    ensures { result ≡ plain }
{
    Mode { default: false }
}

// Whether a number stands for a mode. Each field has a bit, from the lowest on; no other bit has a meaning.
pub fn is_known(number: u32) -> bool
    ensures { result ≡ is_known number }
{
    number < 2
}

// The mode that a number stands for: 0 is the plain one, 1 sets `default`. Bits without a meaning are not looked at.
pub fn mode_of(number: u32) -> Mode
    ensures { result ≡ mode_of number }
{
    Mode {
        default: number % 2 == 1,
    }
}
