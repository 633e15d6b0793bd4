// Drawing a character.
ghost use Rattle.std.specs.Prelude.{◌≡◌, length};
ghost use Rattle.bitmaps.specs.Place.{place_at};
ghost use Rattle.glyphs.specs.Char.{char_of, char_ready, draw_char, char_leaves};

use crate::CharDrawn;
use crate::glyph::{glyph_drawn, show_glyph};
use bitmaps::Drawn;
use lookup::Supplier;
use modes::Mode;
use outcome::ok_place;
use place::{CharPrepared, GlyphInfo, char_info};
use reads::CharCode;
use tables::{Permit, Record, guard, record_fits};

// The answer for a glyph that was supplied by this code, placed so and drawn so.
fn char_of(info: GlyphInfo, by: Supplier, drawn: Drawn) -> CharDrawn
    ensures { result ≡ char_of info by drawn }
{
    match drawn {
        Drawn::Rows(rows) => CharDrawn::Glyph(info, rows, by),
        Drawn::Refused(r) => CharDrawn::Refused(r),
    }
}

// Where a character's glyph is placed, or what refuses it before it is drawn: 6, 15, 9, 10 and 11.
fn char_ready(
    bytes: &[u8],
    rec: Record,
    mode: Mode,
    code: CharCode,
    start: usize,
    stride: usize,
    scale: usize,
) -> CharPrepared
    ensures { result ≡ char_ready bytes.now rec mode code.0 (place_at start stride scale) }
{
    let permit = guard(
        record_fits(bytes.len(), rec),
        ok_place(start, stride, scale),
    );
    match permit {
        Permit::Given => char_info(
            bytes,
            rec.codes,
            mode,
            rec.metrics,
            rec.accel.maxbounds,
            code,
        ),
        Permit::Refused(r) => CharPrepared::Refused(r),
    }
}

// What `draw_char` answers with a buffer of `len` pixels, refusals and their order too: a dry run.
pub fn char_check(
    bytes: &[u8],
    rec: Record,
    mode: Mode,
    code: CharCode,
    len: usize,
    start: usize,
    stride: usize,
    scale: usize,
) -> CharDrawn
    ensures { result ≡ draw_char bytes.now rec mode code.0 len (place_at start stride scale) }
{
    let ready = char_ready(bytes, rec, mode, code, start, stride, scale);
    match ready {
        CharPrepared::Info(info, by) => {
            let drawn = glyph_drawn(
                bytes,
                rec.bitmaps,
                info,
                len,
                start,
                stride as u16,
                scale as u8,
            );
            char_of(info, by, drawn)
        }
        CharPrepared::Refused(r) => CharDrawn::Refused(r),
    }
}

// Draws the glyph that shows a character in this mode where `place::prep_char` places it, and answers that place, the
// rows drawn and dropped, and the code that supplied the glyph; a glyph without a bitmap draws nothing and drops
// nothing. Refused, all with place 0 and no pixel coloured: 6 for a record that fails its test with these bytes; 15 for
// a start, stride or scale outside its limits (`outcome::ok_place`); 9, 10 and 11 as `place::prep_char`; 13 for a scan
// unit code other than 0, 1, 2, or a scan unit wider than the row pad; 14 where a byte that holds columns of a drawn
// row lies beyond the bitmap data; 16 where a set bit of a drawn row has a pixel beyond the buffer.
pub fn draw_char(
    bytes: &[u8],
    rec: Record,
    mode: Mode,
    code: CharCode,
    buf: &mut [u32],
    start: usize,
    stride: usize,
    scale: usize,
    colour: u32,
) -> CharDrawn
    ensures value { result ≡ draw_char bytes.now rec mode code.0 (length buf.old) (place_at start stride scale) }
    ensures buf_after { buf.new ≡ char_leaves bytes.now rec (place_at start stride scale) colour result buf.old }
{
    let ready = char_ready(bytes, rec, mode, code, start, stride, scale);
    match ready {
        CharPrepared::Info(info, by) => {
            let drawn = show_glyph(
                bytes,
                rec.bitmaps,
                info,
                &mut *buf,
                start,
                stride as u16,
                scale as u8,
                colour,
            );
            char_of(info, by, drawn)
        }
        CharPrepared::Refused(r) => CharDrawn::Refused(r),
    }
}
