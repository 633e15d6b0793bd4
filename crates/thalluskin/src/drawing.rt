// Drawing and unpacking one glyph.
ghost use Rattle.std.specs.Prelude.{◌≡◌, length};
ghost use Rattle.bitmaps.specs.Draw.{draw_bitmap, shown_leaves};
ghost use Rattle.glyphs.specs.Glyph.{draw_glyph, glyph_leaves};
ghost use Rattle.glyphs.specs.Char.{draw_char, char_leaves};
ghost use Rattle.glyphs.specs.Unpack.{unpack_glyph, unpack_leaves};
ghost use Rattle.thalluskin.specs.Pages.{mode_in, stride_of, place_of};
ghost use Rattle.thalluskin.specs.Drawing.{rows_answer, char_answer, unpack_answer};

use crate::pages::stride_of;
use crate::placing::{no_info, no_supplier};
use crate::{Bitmap, CharAnswer, PageNumbers, RowsAnswer, UnpackAnswer};
use bitmaps::{Drawn, Rows, Unpacked};
use glyphs::{CharDrawn, draw_char, draw_glyph, unpack_glyph};
use modes::mode_of;
use paint::draw_bitmap;
use place::GlyphInfo;
use reads::CharCode;
use tables::Record;

// What drawing a glyph answered.
fn rows_answer(drawn: Drawn) -> RowsAnswer
    ensures { result ≡ rows_answer drawn }
{
    match drawn {
        Drawn::Rows(rows) => RowsAnswer {
            refusal: 0,
            place: 0,
            rows,
        },
        Drawn::Refused(r) => RowsAnswer {
            refusal: r.number as u32,
            place: r.place,
            rows: Rows {
                drawn: 0,
                dropped: 0,
            },
        },
    }
}

// Draws a glyph's bitmap at `start`, as `paint::draw_bitmap` does. Refused, with place 0 and no pixel coloured: 6, 15,
// an unknown mode too, 12, 13, 14, 16.
pub fn thalluskin_draw_bitmap(
    bytes: &[u8],
    rec: Record,
    bitmap: Bitmap,
    buf: &mut [u32],
    page: PageNumbers,
) -> RowsAnswer
    ensures value { result ≡ rows_answer (draw_bitmap bytes.now rec bitmap.glyph.0 bitmap.width bitmap.height (length buf.old) (place_of page)) }
    ensures buf_after { buf.new ≡ shown_leaves bytes.now rec.bitmaps bitmap.glyph.0 bitmap.width (place_of page) page.colour (draw_bitmap bytes.now rec bitmap.glyph.0 bitmap.width bitmap.height (length buf.old) (place_of page)) buf.old }
{
    rows_answer(draw_bitmap(
        bytes,
        rec,
        bitmap.glyph,
        bitmap.width,
        bitmap.height,
        &mut *buf,
        page.start,
        stride_of(page),
        page.scale,
        page.colour,
    ))
}

// Draws a placed glyph, as `glyphs::draw_glyph` does. Refused, with place 0 and no pixel coloured: 6, 15, an unknown
// mode too, 13, 14, 16.
pub fn thalluskin_draw_glyph(
    bytes: &[u8],
    rec: Record,
    info: GlyphInfo,
    buf: &mut [u32],
    page: PageNumbers,
) -> RowsAnswer
    ensures value { result ≡ rows_answer (draw_glyph bytes.now rec (mode_in page) info (length buf.old) (place_of page)) }
    ensures buf_after { buf.new ≡ glyph_leaves bytes.now rec info (place_of page) page.colour (draw_glyph bytes.now rec (mode_in page) info (length buf.old) (place_of page)) buf.old }
{
    rows_answer(draw_glyph(
        bytes,
        rec,
        mode_of(page.mode),
        info,
        &mut *buf,
        page.start,
        stride_of(page),
        page.scale,
        page.colour,
    ))
}

// What drawing a character answered.
fn char_answer(drawn: CharDrawn) -> CharAnswer
    ensures { result ≡ char_answer drawn }
{
    match drawn {
        CharDrawn::Glyph(info, rows, by) => CharAnswer {
            refusal: 0,
            place: 0,
            info,
            rows,
            by,
        },
        CharDrawn::Refused(r) => CharAnswer {
            refusal: r.number as u32,
            place: r.place,
            info: no_info(),
            rows: Rows {
                drawn: 0,
                dropped: 0,
            },
            by: no_supplier(),
        },
    }
}

// Draws a character, as `glyphs::draw_char` does. Refused, with place 0 and no pixel coloured: 6, 15, an unknown mode
// too, 9, 10, 11, 13, 14, 16.
pub fn thalluskin_draw_char(
    bytes: &[u8],
    rec: Record,
    code: CharCode,
    buf: &mut [u32],
    page: PageNumbers,
) -> CharAnswer
    ensures value { result ≡ char_answer (draw_char bytes.now rec (mode_in page) code.0 (length buf.old) (place_of page)) }
    ensures buf_after { buf.new ≡ char_leaves bytes.now rec (place_of page) page.colour (draw_char bytes.now rec (mode_in page) code.0 (length buf.old) (place_of page)) buf.old }
{
    char_answer(draw_char(
        bytes,
        rec,
        mode_of(page.mode),
        code,
        &mut *buf,
        page.start,
        stride_of(page),
        page.scale,
        page.colour,
    ))
}

// What unpacking a glyph answered.
fn unpack_answer(unpacked: Unpacked) -> UnpackAnswer
    ensures { result ≡ unpack_answer unpacked }
{
    match unpacked {
        Unpacked::Rows(rows) => UnpackAnswer {
            refusal: 0,
            place: 0,
            rows,
        },
        Unpacked::Refused(r) => UnpackAnswer {
            refusal: r.number as u32,
            place: r.place,
            rows: 0,
        },
    }
}

// Stores 1 for each set bit of a placed glyph, as `glyphs::unpack_glyph` does. Refused, with place 0 and no byte
// changed: 6, 15, an unknown mode too, 13, 14, 16.
pub fn thalluskin_unpack_glyph(
    bytes: &[u8],
    rec: Record,
    info: GlyphInfo,
    buf: &mut [u8],
    page: PageNumbers,
) -> UnpackAnswer
    ensures value { result ≡ unpack_answer (unpack_glyph bytes.now rec (mode_in page) info (length buf.old) page.start (stride_of page)) }
    ensures buf_after { buf.new ≡ unpack_leaves bytes.now rec info page.start (stride_of page) (unpack_glyph bytes.now rec (mode_in page) info (length buf.old) page.start (stride_of page)) buf.old }
{
    unpack_answer(unpack_glyph(
        bytes,
        rec,
        mode_of(page.mode),
        info,
        &mut *buf,
        page.start,
        stride_of(page),
    ))
}
