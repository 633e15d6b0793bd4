// From a character code to a glyph.
#![tactic(auto)]

mod serving;

ghost use Rattle.std.specs.Prelude.{◌≡◌};
ghost use Rattle.lookup.specs.CodeRange.{code_range};
ghost use Rattle.lookup.specs.Lookup.{one_byte, slot_whole, slot_bytes, slot_of, entry_glyph, glyph_of};

use reads::{CharCode, GlyphIndex, Refusal, u16_at};
pub use serving::{get_glyph, or_else, or_stand_in, serve, stand_in};
use tables::EncodingData;

// A code's own glyph.
#[derive(Clone, Copy)]
pub enum Found {
    Glyph(GlyphIndex),
    Refused(Refusal),
}

// The code that supplied a glyph: the one asked for, or the font's default code, which stands in for a code without a
// glyph.
#[repr(C)]
#[derive(Clone, Copy)]
pub struct Supplier {
    pub code: CharCode,
    pub is_default: bool,
}

// The glyph that shows a character, and the code that supplied it.
#[derive(Clone, Copy)]
pub enum Served {
    Glyph(GlyphIndex, Supplier),
    Refused(Refusal),
}

// Which entry of the code table a code has.
#[derive(Clone, Copy)]
pub enum Slot {
    At(u32),
    Nothing,
}

// The codes that may have a glyph: from `low` on, up to but not with `end`.
#[repr(C)]
#[derive(Clone, Copy)]
pub struct CodeRange {
    pub low: CharCode,
    pub end: CharCode,
}

// Whether codes are one number, and not two bytes.
pub fn one_byte(c: EncodingData) -> bool
    ensures { result ≡ one_byte c }
{
    (c.low1 == 0) & (c.high1 == 0)
}

// The entry of a code, where the code is one number.
fn slot_whole(c: EncodingData, n: u32) -> Slot
    ensures { result ≡ slot_whole c n }
{
    let low2 = c.low2 as u32;
    let high2 = c.high2 as u32;
    if n < low2 {
        return Slot::Nothing;
    }
    if high2 < n {
        return Slot::Nothing;
    }
    Slot::At(n - low2)
}

// The entry of a code, where the code is two bytes.
fn slot_bytes(c: EncodingData, byte1: u32, byte2: u32) -> Slot
    ensures { result ≡ slot_bytes c byte1 byte2 }
{
    let low2 = c.low2 as u32;
    let high2 = c.high2 as u32;
    let low1 = c.low1 as u32;
    let high1 = c.high1 as u32;
    if byte1 < low1 {
        return Slot::Nothing;
    }
    if high1 < byte1 {
        return Slot::Nothing;
    }
    if byte2 < low2 {
        return Slot::Nothing;
    }
    if high2 < byte2 {
        return Slot::Nothing;
    }
    Slot::At((byte1 - low1) * (high2 - low2 + 1) + (byte2 - low2))
}

fn slot_of(c: EncodingData, n: u32) -> Slot
    ensures { result ≡ slot_of c n }
{
    if 65535 < n {
        return Slot::Nothing;
    }
    if one_byte(c) {
        return slot_whole(c, n);
    }
    slot_bytes(c, n / 256, n % 256)
}

// An entry's glyph: 65,535 says that there is none.
fn entry_glyph(g: u16) -> Found
    ensures { result ≡ entry_glyph g }
{
    if g == 65535 {
        return Found::Refused(Refusal {
            number: 9,
            place: 0,
        });
    }
    Found::Glyph(GlyphIndex(g))
}

// A code's own glyph in this table, or 9. Bytes past the end read as 0.
pub fn glyph_of(s: &[u8], codes: EncodingData, code: CharCode) -> Found
    ensures { result ≡ glyph_of s.now codes code.0 }
{
    let slot = slot_of(codes, code.0);
    match slot {
        Slot::At(i) => entry_glyph(u16_at(s, codes.entries, 2 * (i as usize), codes.big)),
        Slot::Nothing => Found::Refused(Refusal {
            number: 9,
            place: 0,
        }),
    }
}

// The range of codes outside which this table has no glyph. Whoever asks something of every code asks
// it of these.
pub fn code_range(c: EncodingData) -> CodeRange
    ensures { result ≡ code_range c }
{
    let high1 = c.high1 as u32;
    if one_byte(c) {
        return CodeRange {
            low: CharCode(c.low2 as u32),
            end: CharCode(c.high2 as u32 + 1),
        };
    }
    let low = CharCode(256 * (c.low1 as u32));
    if 255 <= high1 {
        return CodeRange {
            low,
            end: CharCode(65536),
        };
    }
    CodeRange {
        low,
        end: CharCode(256 * high1 + 256),
    }
}
