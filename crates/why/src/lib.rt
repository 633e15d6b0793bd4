// Why a character is not on the glass, or is: one reason, the first that is true in document 02's order. An installer
// asks this where `glyphs::draw_char` left a gap.
#![tactic(auto)]

mod bounds;
mod reasons;

ghost use Rattle.std.specs.Prelude.{◌≡◌};
ghost use Rattle.bitmaps.specs.Place.{place_at};
ghost use Rattle.why.specs.Why.{why_of, reason_number};

use crate::reasons::reason_of;
use lookup::Supplier;
use modes::Mode;
use outcome::ok_place;
use reads::{CharCode, Refusal};
use tables::{Permit, Record, guard, record_fits};

// The reasons, in the order in which they are looked for.
#[derive(Clone, Copy)]
pub enum Reason {
    // The code is above 65,535: no font of this format has a glyph for it.
    AboveCodes,
    // The code's first byte is outside the code table's bounds, which are not both 0.
    FirstByte,
    // Its second byte is, or, where the first-byte bounds are both 0, the whole code.
    SecondByte,
    // The code table has an entry for the code, and it is 65,535: no glyph.
    EmptyEntry,
    // 10: the glyph is at or above the metrics count.
    NoMetrics,
    // 11: its metrics are out of range.
    BadMetrics,
    // 12: it is at or above the bitmap count. Drawing draws nothing and does not refuse.
    NoBitmap,
    // 13: scan unit code 3, or a scan unit wider than the row pad.
    BitOrder,
    // 14: a byte that holds columns of a drawn row lies beyond the bitmap data.
    BitmapShort,
    // 16: a set bit of a drawn row has a pixel beyond the buffer.
    BufferShort,
    // The buffer's end cut so many rows; the others are drawn.
    RowsCut(u16),
    // All rows are drawn, and none has a set bit.
    Blank,
    // All rows are drawn, and there is something to see.
    Drawn,
}

// The reason, with the code that it speaks of, or why there is none to give. The first four speak of the code asked
// for, the others of the code that supplied the glyph.
#[derive(Clone, Copy)]
pub enum Told {
    Because(Reason, Supplier),
    Refused(Refusal),
}

// A reason as a number: that of a refusal is the refusal's, the others have 31 to 37, which no refusal has. And how
// many rows were cut.
#[repr(C)]
#[derive(Clone, Copy)]
pub struct ReasonNumber {
    pub number: u32,
    pub cut: u16,
}

// Why `glyphs::draw_char` shows a character so in this mode, with a buffer of `len` pixels, which may be any number: the
// first reason that is true of the font's bytes and the arguments, and the code that it speaks of. The first four are
// given only where drawing refuses the character with 9, so in default mode only where the default code has no glyph
// either. Refused, both with place 0: 6 for a record that fails its test with these bytes; 15 for a start, stride or
// scale outside its limits (`outcome::ok_place`).
pub fn why(
    bytes: &[u8],
    rec: Record,
    mode: Mode,
    code: CharCode,
    len: usize,
    start: usize,
    stride: usize,
    scale: usize,
) -> Told
    ensures { result ≡ why_of bytes.now rec mode code.0 len (place_at start stride scale) }
{
    let permit = guard(
        record_fits(bytes.len(), rec),
        ok_place(start, stride, scale),
    );
    match permit {
        Permit::Given => reason_of(
            bytes,
            rec,
            mode,
            code,
            len,
            start,
            stride as u16,
            scale as u8,
        ),
        Permit::Refused(r) => Told::Refused(r),
    }
}

// A reason's number: 31 for a code above 65,535, 32 and 33 for a first and a second byte outside the bounds, 34 for an
// empty entry; 10, 11, 12, 13, 14, 16; 35 for rows cut, 36 for a blank picture, 37 for a drawn one.
pub fn reason_number(reason: Reason) -> ReasonNumber
    ensures { result ≡ reason_number reason }
{
    match reason {
        Reason::AboveCodes => ReasonNumber { number: 31, cut: 0 },
        Reason::FirstByte => ReasonNumber { number: 32, cut: 0 },
        Reason::SecondByte => ReasonNumber { number: 33, cut: 0 },
        Reason::EmptyEntry => ReasonNumber { number: 34, cut: 0 },
        Reason::NoMetrics => ReasonNumber { number: 10, cut: 0 },
        Reason::BadMetrics => ReasonNumber { number: 11, cut: 0 },
        Reason::NoBitmap => ReasonNumber { number: 12, cut: 0 },
        Reason::BitOrder => ReasonNumber { number: 13, cut: 0 },
        Reason::BitmapShort => ReasonNumber { number: 14, cut: 0 },
        Reason::BufferShort => ReasonNumber { number: 16, cut: 0 },
        Reason::RowsCut(cut) => ReasonNumber { number: 35, cut },
        Reason::Blank => ReasonNumber { number: 36, cut: 0 },
        Reason::Drawn => ReasonNumber { number: 37, cut: 0 },
    }
}
