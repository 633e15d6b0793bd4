// Drawing a placed glyph.
ghost use Rattle.std.specs.Prelude.{◌≡◌, min, length};
ghost use Rattle.bitmaps.specs.Place.{place_at};
ghost use Rattle.bitmaps.specs.Draw.{shown_leaves};
ghost use Rattle.glyphs.specs.Glyph.{place_of, ok_info, glyph_drawn, glyph_ready, draw_glyph, glyph_leaves};

use bitmaps::{Drawn, Rows, no_bitmap};
use modes::Mode;
use outcome::{ok_pair, ok_place, shown_at};
use paint::show_at;
use place::GlyphInfo;
use tables::{BitmapData, Permit, Record, guard, record_fits};

// Where a placed glyph is drawn; 2^64 - 1 where that is beyond 64 bits, and so beyond any buffer.
pub fn place_of(info: GlyphInfo, start: usize, stride: u16, scale: u8) -> usize
    ensures { result ≡ min 18446744073709551615 (place_of info (place_at start stride scale)).p }
{
    let side = scale as usize;
    let down = stride as usize * side * info.pad_top as usize;
    let right = side * info.pad_left as usize;
    if 18446744073709551615 - (down + right) < start {
        return 18446744073709551615;
    }
    start + down + right
}

// Whether a given glyph's width, height and pads are within their mode's limits, the same in each mode so far.
pub(crate) fn ok_info(mode: Mode, info: GlyphInfo) -> bool
    ensures { result ≡ ok_info mode info }
{
    ok_pair(info.width as usize, info.height as usize)
        & ok_pair(info.pad_top as usize, info.pad_left as usize)
}

// What drawing a placed glyph answers with a buffer of `len` pixels: nothing drawn for a glyph without a
// bitmap, else 13, 14, 16, or the rows. Takes the table's numbers as they are, and any `start`.
pub fn glyph_drawn(
    s: &[u8],
    b: BitmapData,
    info: GlyphInfo,
    len: usize,
    start: usize,
    stride: u16,
    scale: u8,
) -> Drawn
    ensures { result ≡ glyph_drawn s.now b info len (place_at start stride scale) }
{
    let g = info.glyph;
    if no_bitmap(b, g) {
        return Drawn::Rows(Rows {
            drawn: 0,
            dropped: 0,
        });
    }
    let p = place_of(info, start, stride, scale);
    shown_at(s, b, g, info.width, info.height, len, p, stride, scale)
}

// The same, with the pixels coloured.
pub fn show_glyph(
    s: &[u8],
    b: BitmapData,
    info: GlyphInfo,
    buf: &mut [u32],
    start: usize,
    stride: u16,
    scale: u8,
    colour: u32,
) -> Drawn
    ensures value { result ≡ glyph_drawn s.now b info (length buf.old) (place_at start stride scale) }
    ensures buf_after { buf.new ≡ shown_leaves s.now b info.glyph.0 info.width (place_of info (place_at start stride scale)) colour result buf.old }
{
    let g = info.glyph;
    if no_bitmap(b, g) {
        return Drawn::Rows(Rows {
            drawn: 0,
            dropped: 0,
        });
    }
    let p = place_of(info, start, stride, scale);
    show_at(
        s,
        b,
        g,
        info.width,
        info.height,
        &mut *buf,
        p,
        stride,
        scale,
        colour,
    )
}

// The tests before a placed glyph is drawn: 6 for the record, 15 for the place and the glyph's own numbers.
fn glyph_ready(
    bytes: &[u8],
    rec: Record,
    mode: Mode,
    info: GlyphInfo,
    start: usize,
    stride: usize,
    scale: usize,
) -> Permit
    ensures { result ≡ glyph_ready bytes.now rec mode info (place_at start stride scale) }
{
    guard(
        record_fits(bytes.len(), rec),
        ok_place(start, stride, scale) & ok_info(mode, info),
    )
}

// What `draw_glyph` answers with a buffer of `len` pixels, refusals and their order too: a dry run.
pub fn glyph_check(
    bytes: &[u8],
    rec: Record,
    mode: Mode,
    info: GlyphInfo,
    len: usize,
    start: usize,
    stride: usize,
    scale: usize,
) -> Drawn
    ensures { result ≡ draw_glyph bytes.now rec mode info len (place_at start stride scale) }
{
    let permit = glyph_ready(bytes, rec, mode, info, start, stride, scale);
    match permit {
        Permit::Given => glyph_drawn(
            bytes,
            rec.bitmaps,
            info,
            len,
            start,
            stride as u16,
            scale as u8,
        ),
        Permit::Refused(r) => Drawn::Refused(r),
    }
}

// Draws a placed glyph from `start` on, lowered and moved right by its pads, alike in each mode so far, and answers the
// rows drawn and dropped; a glyph without a bitmap draws nothing and drops nothing. Refused, all with place 0 and no
// pixel coloured: 6 for a record that fails its test with these bytes; 15 for a start, stride or scale outside its
// limits (`outcome::ok_place`), or a width, height or pad over 32,767; 13 for a scan unit code other than 0, 1, 2, or a
// scan unit wider than the row pad; 14 where a byte that holds columns of a drawn row lies beyond the bitmap data; 16
// where a set bit of a drawn row has a pixel beyond the buffer.
pub fn draw_glyph(
    bytes: &[u8],
    rec: Record,
    mode: Mode,
    info: GlyphInfo,
    buf: &mut [u32],
    start: usize,
    stride: usize,
    scale: usize,
    colour: u32,
) -> Drawn
    ensures value { result ≡ draw_glyph bytes.now rec mode info (length buf.old) (place_at start stride scale) }
    ensures buf_after { buf.new ≡ glyph_leaves bytes.now rec info (place_at start stride scale) colour result buf.old }
{
    let permit = glyph_ready(bytes, rec, mode, info, start, stride, scale);
    match permit {
        Permit::Given => show_glyph(
            bytes,
            rec.bitmaps,
            info,
            &mut *buf,
            start,
            stride as u16,
            scale as u8,
            colour,
        ),
        Permit::Refused(r) => Drawn::Refused(r),
    }
}
