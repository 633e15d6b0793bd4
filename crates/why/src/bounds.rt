// Whether a code lies outside the bounds of a code table.
ghost use Rattle.std.specs.Prelude.{◌≡◌};
ghost use Rattle.why.specs.Codes.{second_byte, first_outside, second_outside};

use lookup::one_byte;
use tables::EncodingData;

// Whether a code's first byte is outside its bounds; where these are both 0, it has none.
pub(crate) fn first_outside(c: EncodingData, code: u32) -> bool
    ensures { result ≡ first_outside c code }
{
    let byte1 = code / 256;
    if one_byte(c) {
        return false;
    }
    (byte1 < c.low1 as u32) | ((c.high1 as u32) < byte1)
}

// What the second-byte bounds are for: a code's second byte, or the code.
fn second_byte(c: EncodingData, code: u32) -> u32
    ensures { result ≡ second_byte c code }
{
    if one_byte(c) {
        return code;
    }
    code % 256
}

pub(crate) fn second_outside(c: EncodingData, code: u32) -> bool
    ensures { result ≡ second_outside c code }
{
    let byte2 = second_byte(c, code);
    (byte2 < c.low2 as u32) | ((c.high2 as u32) < byte2)
}
