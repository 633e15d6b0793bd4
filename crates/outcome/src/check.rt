// The answers, refusals in their order.
ghost use Rattle.std.specs.Prelude.{◌≡◌};
ghost use Rattle.bitmaps.specs.Place.{place_at};
ghost use Rattle.bitmaps.specs.Limits.{ok_place, ok_pair};
ghost use Rattle.bitmaps.specs.Cut.{drawn_rows};
ghost use Rattle.bitmaps.specs.Draw.{shown_at, bitmap_ready, draw_bitmap};
ghost use Rattle.bitmaps.specs.Unpack.{unpacked_at};

use crate::past::{corner_past, room_from, rows_past};
use bitmaps::{
    Drawn, Rows, Unpacked, bytes_past, no_bitmap, offset_of, order_of, row_bytes, row_stride,
    unreadable,
};
use reads::{GlyphIndex, Refusal};
use tables::{BitmapData, Permit, Record, guard, record_fits};

// How many of a glyph's rows are drawn into a buffer of `len` pixels from p on: the buffer's whole lines,
// in groups of `scale`.
pub fn rows_drawn(len: usize, p: usize, stride: u16, scale: u8, height: u16) -> u16
    ensures { result ≡ drawn_rows len (place_at p stride scale) height }
{
    if stride == 0 {
        return 0;
    }
    if scale == 0 {
        return 0;
    }
    let line = stride as usize;
    let side = scale as usize;
    let room = room_from(len, p);
    // Most glyphs have room, which is seen without a division.
    if (height as usize + (side - 1)) * line <= room {
        return height;
    }
    let whole = room / line / side * side;
    if height as usize <= whole {
        return height;
    }
    whole as u16
}

// What drawing glyph g, of this width and height, at place p answers: 13, 14 over the drawn rows, 16, or
// the rows. Takes the table's numbers as they are, and does not ask whether g has a bitmap.
pub fn shown_at(
    s: &[u8],
    b: BitmapData,
    g: GlyphIndex,
    width: u16,
    height: u16,
    len: usize,
    p: usize,
    stride: u16,
    scale: u8,
) -> Drawn
    ensures { result ≡ shown_at s.now b g.0 width height len (place_at p stride scale) }
{
    if unreadable(b) {
        return Drawn::Refused(Refusal {
            number: 13,
            place: 0,
        });
    }
    let n = rows_drawn(len, p, stride, scale, height);
    // Without a row or a column there is no byte and no pixel to test.
    if (n == 0) | (width == 0) {
        return Drawn::Rows(Rows {
            drawn: n,
            dropped: height - n,
        });
    }
    let first = offset_of(s, b, g);
    let step = row_stride(width, b.pad);
    if bytes_past(s, b, first, step, width, n) {
        return Drawn::Refused(Refusal {
            number: 14,
            place: 0,
        });
    }
    let from = b.bits + first as usize;
    let columns = width as u32;
    if corner_past(columns, n, len, p, stride, scale) {
        if rows_past(
            s,
            order_of(b),
            from,
            step,
            columns,
            n,
            len,
            p,
            stride,
            scale,
        ) {
            return Drawn::Refused(Refusal {
                number: 16,
                place: 0,
            });
        }
    }
    Drawn::Rows(Rows {
        drawn: n,
        dropped: height - n,
    })
}

// What unpacking glyph g at place p answers: 13, 14 over all rows, 16 for every whole row byte, or the
// rows. Takes the table's numbers as they are, and does not ask whether g has a bitmap.
pub fn unpacked_at(
    s: &[u8],
    b: BitmapData,
    g: GlyphIndex,
    width: u16,
    height: u16,
    len: usize,
    p: usize,
    stride: u16,
) -> Unpacked
    ensures { result ≡ unpacked_at s.now b g.0 width height len p stride }
{
    if unreadable(b) {
        return Unpacked::Refused(Refusal {
            number: 13,
            place: 0,
        });
    }
    if (height == 0) | (width == 0) {
        return Unpacked::Rows(height);
    }
    let first = offset_of(s, b, g);
    let step = row_stride(width, b.pad);
    if bytes_past(s, b, first, step, width, height) {
        return Unpacked::Refused(Refusal {
            number: 14,
            place: 0,
        });
    }
    let from = b.bits + first as usize;
    let columns = 8 * row_bytes(width);
    if corner_past(columns, height, len, p, stride, 1) {
        if rows_past(
            s,
            order_of(b),
            from,
            step,
            columns,
            height,
            len,
            p,
            stride,
            1,
        ) {
            return Unpacked::Refused(Refusal {
                number: 16,
                place: 0,
            });
        }
    }
    Unpacked::Rows(height)
}

// Whether a caller's start, stride and scale are within their limits: start at most 2,147,483,647, stride
// 1 to 65,535, scale 1 to 64. If not, drawing answers 15.
pub fn ok_place(start: usize, stride: usize, scale: usize) -> bool
    ensures { result ≡ ok_place (place_at start stride scale) }
{
    (start <= 2147483647) & ((1 <= stride) & (stride <= 65535)) & ((1 <= scale) & (scale <= 64))
}

// Whether two given widths, heights or pads are at most 32,767. If not, drawing answers 15.
pub fn ok_pair(a: usize, b: usize) -> bool
    ensures { result ≡ ok_pair a b }
{
    (a <= 32767) & (b <= 32767)
}

// The tests before a bitmap is drawn: 6 for the record, 15 for the place, the width and the height, 12 for a glyph
// without a bitmap.
pub fn bitmap_ready(
    bytes: &[u8],
    rec: Record,
    g: GlyphIndex,
    width: usize,
    height: usize,
    start: usize,
    stride: usize,
    scale: usize,
) -> Permit
    ensures { result ≡ bitmap_ready bytes.now rec g.0 width height (place_at start stride scale) }
{
    let permit = guard(
        record_fits(bytes.len(), rec),
        ok_place(start, stride, scale) & ok_pair(width, height),
    );
    match permit {
        Permit::Given => {
            if no_bitmap(rec.bitmaps, g) {
                return Permit::Refused(Refusal {
                    number: 12,
                    place: 0,
                });
            }
            Permit::Given
        }
        Permit::Refused(r) => Permit::Refused(r),
    }
}

// What `paint::draw_bitmap` answers with a buffer of `len` pixels, refusals and their order too: a dry run.
pub fn bitmap_check(
    bytes: &[u8],
    rec: Record,
    g: GlyphIndex,
    width: usize,
    height: usize,
    len: usize,
    start: usize,
    stride: usize,
    scale: usize,
) -> Drawn
    ensures { result ≡ draw_bitmap bytes.now rec g.0 width height len (place_at start stride scale) }
{
    let permit = bitmap_ready(bytes, rec, g, width, height, start, stride, scale);
    match permit {
        Permit::Given => shown_at(
            bytes,
            rec.bitmaps,
            g,
            width as u16,
            height as u16,
            len,
            start,
            stride as u16,
            scale as u8,
        ),
        Permit::Refused(r) => Drawn::Refused(r),
    }
}
