// Character codes that would not be seen.
ghost use Rattle.std.specs.Prelude.{◌≡◌};
ghost use Rattle.console.specs.Unseen.{unseen};

// Whether a character would not be seen, or a terminal might obey it.
pub fn unseen(code: u32) -> bool
    ensures { result ≡ unseen code }
{
    (code <= 0x20)
        | ((0x7F <= code) & (code <= 0xA0))
        | (code == 0xAD)
        | (code == 0x34F)
        | (code == 0x61C)
        | ((0x115F <= code) & (code <= 0x1160))
        | (code == 0x1680)
        | ((0x17B4 <= code) & (code <= 0x17B5))
        | ((0x180B <= code) & (code <= 0x180F))
        | ((0x2000 <= code) & (code <= 0x200F))
        | ((0x2028 <= code) & (code <= 0x202F))
        | ((0x205F <= code) & (code <= 0x206F))
        | (code == 0x2800)
        | (code == 0x3000)
        | (code == 0x3164)
        | ((0xFE00 <= code) & (code <= 0xFE0F))
        | (code == 0xFEFF)
        | (code == 0xFFA0)
        | ((0xFFF0 <= code) & (code <= 0xFFFB))
        | ((0x1BCA0 <= code) & (code <= 0x1BCA3))
        | ((0x1D173 <= code) & (code <= 0x1D17A))
        | ((0xE0000 <= code) & (code <= 0xE0FFF))
}
