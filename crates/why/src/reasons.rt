// The reasons in their order, from the code to the picture. Nothing here tests the record: bytes past the end are 0.
ghost use Rattle.std.specs.Prelude.{◌≡◌, false};
ghost use Rattle.bitmaps.specs.Place.{place_at};
ghost use Rattle.bitmaps.specs.Picture.{rows_short, pixel_past};
ghost use Rattle.why.specs.Reasons.{some_bit, rows_reason, placed_reason, glyph_reason, code_reason, reason_of};

use crate::bounds::{first_outside, second_outside};
use crate::{Reason, Told};
use bitmaps::{bytes_past, no_bitmap, offset_of, order_of, row_stride, unreadable};
use glyphs::place_of;
use lookup::{Served, Supplier, glyph_of, or_stand_in};
use modes::Mode;
use outcome::{rows_drawn, rows_past};
use place::{GlyphInfo, Prepared, info_of};
use reads::{CharCode, GlyphIndex};
use tables::{BitmapData, EncodingData, Record};

// Whether 14 refuses the first n rows of a glyph: the test of `bitmaps::rows_short`, which vetting has compiled into
// its loop as long as nothing else in the archive calls it.
fn rows_lacking(s: &[u8], b: BitmapData, g: GlyphIndex, width: u16, n: u16) -> bool
    ensures { result ≡ rows_short s.now b g.0 width n }
{
    bytes_past(s, b, offset_of(s, b, g), row_stride(width, b.pad), width, n)
}

// Whether 16 refuses the first n rows of a glyph, which are all there.
fn pixel_past(
    s: &[u8],
    b: BitmapData,
    g: GlyphIndex,
    width: u16,
    n: u16,
    len: usize,
    p: usize,
    stride: u16,
    scale: u8,
) -> bool
    requires { rows_short s.now b g.0 width n ≡ false }
    ensures { result ≡ pixel_past s.now b g.0 width width (place_at p stride scale) n len }
{
    if (n == 0) | (width == 0) {
        return false;
    }
    let first = offset_of(s, b, g);
    let step = row_stride(width, b.pad);
    let from = b.bits + first as usize;
    rows_past(
        s,
        order_of(b),
        from,
        step,
        width as u32,
        n,
        len,
        p,
        stride,
        scale,
    )
}

// Whether a glyph has a set bit, all of whose rows are there. Every set bit has a pixel beyond a buffer of none, so the
// search for such a pixel finds it.
fn some_bit(s: &[u8], b: BitmapData, g: GlyphIndex, width: u16, height: u16) -> bool
    requires { rows_short s.now b g.0 width height ≡ false }
    ensures { result ≡ some_bit s.now b g.0 width height }
{
    pixel_past(s, b, g, width, height, 0, 0, 1, 1)
}

// The reason of a glyph whose bitmap can be read, drawn at p: 14, 16, rows cut, blank, drawn. The tests are those of
// `glyphs::glyph_drawn`, which texts have compiled into their loop as long as nothing else in the archive calls it.
fn rows_reason(
    s: &[u8],
    b: BitmapData,
    info: GlyphInfo,
    len: usize,
    p: usize,
    stride: u16,
    scale: u8,
) -> Reason
    ensures { result ≡ rows_reason s.now b info len (place_at p stride scale) }
{
    let g = info.glyph;
    let n = rows_drawn(len, p, stride, scale, info.height);
    if rows_lacking(s, b, g, info.width, n) {
        return Reason::BitmapShort;
    }
    if pixel_past(s, b, g, info.width, n, len, p, stride, scale) {
        return Reason::BufferShort;
    }
    if n < info.height {
        return Reason::RowsCut(info.height - n);
    }
    if some_bit(s, b, g, info.width, info.height) {
        return Reason::Drawn;
    }
    Reason::Blank
}

// The reason of a placed glyph: 12, 13, then as above.
fn placed_reason(
    s: &[u8],
    b: BitmapData,
    info: GlyphInfo,
    len: usize,
    start: usize,
    stride: u16,
    scale: u8,
) -> Reason
    ensures { result ≡ placed_reason s.now b info len (place_at start stride scale) }
{
    if no_bitmap(b, info.glyph) {
        return Reason::NoBitmap;
    }
    if unreadable(b) {
        return Reason::BitOrder;
    }
    let p = place_of(info, start, stride, scale);
    rows_reason(s, b, info, len, p, stride, scale)
}

// The reason of a glyph: 10, 11, then as above.
fn glyph_reason(
    s: &[u8],
    rec: Record,
    g: GlyphIndex,
    len: usize,
    start: usize,
    stride: u16,
    scale: u8,
) -> Reason
    ensures { result ≡ glyph_reason s.now rec g len (place_at start stride scale) }
{
    let prepared = info_of(s, rec.metrics, rec.accel.maxbounds, g);
    match prepared {
        Prepared::Info(info) => placed_reason(s, rec.bitmaps, info, len, start, stride, scale),
        Prepared::Refused(r) => {
            if r.number == 10 {
                return Reason::NoMetrics;
            }
            Reason::BadMetrics
        }
    }
}

// The reason of a code without a glyph to show it: above 65,535, outside the bounds of its bytes, an empty entry.
fn code_reason(codes: EncodingData, code: CharCode) -> Reason
    ensures { result ≡ code_reason codes code.0 }
{
    if 65535 < code.0 {
        return Reason::AboveCodes;
    }
    if first_outside(codes, code.0) {
        return Reason::FirstByte;
    }
    if second_outside(codes, code.0) {
        return Reason::SecondByte;
    }
    Reason::EmptyEntry
}

// The reason of a character: of the code asked for, where no glyph shows it, and else of the glyph, as above.
pub(crate) fn reason_of(
    s: &[u8],
    rec: Record,
    mode: Mode,
    code: CharCode,
    len: usize,
    start: usize,
    stride: u16,
    scale: u8,
) -> Told
    ensures { result ≡ reason_of s.now rec mode code.0 len (place_at start stride scale) }
{
    let own = glyph_of(s, rec.codes, code);
    let served = or_stand_in(s, rec.codes, mode, code, own);
    match served {
        Served::Glyph(g, by) => {
            Told::Because(glyph_reason(s, rec, g, len, start, stride, scale), by)
        }
        Served::Refused(_) => Told::Because(
            code_reason(rec.codes, code),
            Supplier {
                code,
                is_default: false,
            },
        ),
    }
}
