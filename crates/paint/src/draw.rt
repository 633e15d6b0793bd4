// A bitmap drawn at a place: the answer first, then the pixels, in the part of the buffer from there on.
ghost use Rattle.std.specs.Prelude.{◌≡◌, length};
ghost use Rattle.bitmaps.specs.Place.{place_at};
ghost use Rattle.bitmaps.specs.Draw.{shown_at, shown_leaves, draw_bitmap};

use crate::rows::glyph_rows;
use bitmaps::{Drawn, Rows, bytes_past, offset_of, order_of, row_stride, unreadable};
use outcome::{bitmap_ready, corner_past, rows_drawn, rows_past};
use reads::{GlyphIndex, Refusal};
use tables::{BitmapData, Permit, Record};

// Draws glyph g, of this width and height, at place p, or refuses 13, 14, 16 and colours nothing. Takes the
// table's numbers as they are, and does not ask whether g has a bitmap. The tests are those of `outcome::shown_at`,
// made here so that where the rows stand is found once, for them and for the drawing.
pub fn show_at(
    s: &[u8],
    b: BitmapData,
    g: GlyphIndex,
    width: u16,
    height: u16,
    buf: &mut [u32],
    p: usize,
    stride: u16,
    scale: u8,
    colour: u32,
) -> Drawn
    ensures value { result ≡ shown_at s.now b g.0 width height (length buf.old) (place_at p stride scale) }
    ensures buf_after { buf.new ≡ shown_leaves s.now b g.0 width (place_at p stride scale) colour result buf.old }
{
    if unreadable(b) {
        return Drawn::Refused(Refusal {
            number: 13,
            place: 0,
        });
    }
    let n = rows_drawn(buf.len(), p, stride, scale, height);
    // Without a row or a column there is nothing to test, nor to colour.
    if (n == 0) | (width == 0) {
        return Drawn::Rows(Rows {
            drawn: n,
            dropped: height - n,
        });
    }
    let first = offset_of(s, b, g);
    let step = row_stride(width, b.pad);
    if bytes_past(s, b, first, step, width, n) {
        return Drawn::Refused(Refusal {
            number: 14,
            place: 0,
        });
    }
    let from = b.bits + first as usize;
    let columns = width as u32;
    if corner_past(columns, n, buf.len(), p, stride, scale) {
        if rows_past(
            s,
            order_of(b),
            from,
            step,
            columns,
            n,
            buf.len(),
            p,
            stride,
            scale,
        ) {
            return Drawn::Refused(Refusal {
                number: 16,
                place: 0,
            });
        }
    }
    glyph_rows(
        s,
        order_of(b),
        from,
        step,
        width,
        n,
        &mut buf[p..],
        stride,
        scale,
        colour,
    );
    Drawn::Rows(Rows {
        drawn: n,
        dropped: height - n,
    })
}

// Draws glyph g's bitmap, of the width and height given, with its top left pixel at `start`, and answers
// the rows drawn and dropped. Refused, all with place 0 and no pixel coloured: 6 for a record that fails
// its test with these bytes; 15 for a start, stride or scale outside its limits (`outcome::ok_place`), or a
// width or height over 32,767; 12 for a glyph without a bitmap; 13 for a scan unit code other than 0, 1, 2,
// or a scan unit wider than the row pad; 14 where a byte that holds columns of a drawn row lies beyond the
// bitmap data; 16 where a set bit of a drawn row has a pixel beyond the buffer.
pub fn draw_bitmap(
    bytes: &[u8],
    rec: Record,
    g: GlyphIndex,
    width: usize,
    height: usize,
    buf: &mut [u32],
    start: usize,
    stride: usize,
    scale: usize,
    colour: u32,
) -> Drawn
    ensures value { result ≡ draw_bitmap bytes.now rec g.0 width height (length buf.old) (place_at start stride scale) }
    ensures buf_after { buf.new ≡ shown_leaves bytes.now rec.bitmaps g.0 width (place_at start stride scale) colour result buf.old }
{
    let permit = bitmap_ready(bytes, rec, g, width, height, start, stride, scale);
    match permit {
        Permit::Given => show_at(
            bytes,
            rec.bitmaps,
            g,
            width as u16,
            height as u16,
            &mut *buf,
            start,
            stride as u16,
            scale as u8,
            colour,
        ),
        Permit::Refused(r) => Drawn::Refused(r),
    }
}
