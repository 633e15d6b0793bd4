// Unpacking a placed glyph.
ghost use Rattle.std.specs.Prelude.{◌≡◌, length};
ghost use Rattle.bitmaps.specs.Unpack.{unscaled};
ghost use Rattle.glyphs.specs.Glyph.{glyph_ready};
ghost use Rattle.glyphs.specs.Unpack.{unpack_glyph, unpack_leaves};

use crate::glyph::{ok_info, place_of};
use bitmaps::{Unpacked, no_bitmap};
use modes::Mode;
use outcome::{ok_place, unpacked_at};
use place::GlyphInfo;
use tables::{Permit, Record, guard, record_fits};
use unpack::unpack_at;

// The tests before a placed glyph is unpacked: 6 for the record, 15 for the place and the glyph's own numbers.
fn unpack_ready(
    bytes: &[u8],
    rec: Record,
    mode: Mode,
    info: GlyphInfo,
    start: usize,
    stride: usize,
) -> Permit
    ensures { result ≡ glyph_ready bytes.now rec mode info (unscaled start stride) }
{
    guard(
        record_fits(bytes.len(), rec),
        ok_place(start, stride, 1) & ok_info(mode, info),
    )
}

// What `unpack_glyph` answers with a buffer of `len` bytes, refusals and their order too: a dry run.
pub fn unpack_check(
    bytes: &[u8],
    rec: Record,
    mode: Mode,
    info: GlyphInfo,
    len: usize,
    start: usize,
    stride: usize,
) -> Unpacked
    ensures { result ≡ unpack_glyph bytes.now rec mode info len start stride }
{
    let permit = unpack_ready(bytes, rec, mode, info, start, stride);
    match permit {
        Permit::Given => {
            let g = info.glyph;
            if no_bitmap(rec.bitmaps, g) {
                return Unpacked::Rows(0);
            }
            let line = stride as u16;
            let p = place_of(info, start, line, 1);
            unpacked_at(bytes, rec.bitmaps, g, info.width, info.height, len, p, line)
        }
        Permit::Refused(r) => Unpacked::Refused(r),
    }
}

// Unpacks a placed glyph from `start` on, lowered and moved right by its pads, alike in each mode so far: stores 1 for
// each set bit of every whole row byte, columns past the width included, in the order of the picture, and answers the
// rows; a glyph without a bitmap stores nothing and answers 0. No row is cut. Refused, all with place 0 and no byte
// changed: 6 for a record that fails its test with these bytes; 15 for a start or stride outside its limits
// (`outcome::ok_place`), or a width, height or pad over 32,767; 13 for a scan unit code other than 0, 1, 2, or a scan
// unit wider than the row pad; 14 where a byte that holds columns of a row lies beyond the bitmap data; 16 where a set
// bit, columns past the width included, lies beyond the buffer.
pub fn unpack_glyph(
    bytes: &[u8],
    rec: Record,
    mode: Mode,
    info: GlyphInfo,
    buf: &mut [u8],
    start: usize,
    stride: usize,
) -> Unpacked
    ensures value { result ≡ unpack_glyph bytes.now rec mode info (length buf.old) start stride }
    ensures buf_after { buf.new ≡ unpack_leaves bytes.now rec info start stride result buf.old }
{
    let permit = unpack_ready(bytes, rec, mode, info, start, stride);
    match permit {
        Permit::Given => {
            let g = info.glyph;
            if no_bitmap(rec.bitmaps, g) {
                return Unpacked::Rows(0);
            }
            let line = stride as u16;
            let p = place_of(info, start, line, 1);
            unpack_at(
                bytes,
                rec.bitmaps,
                g,
                info.width,
                info.height,
                &mut *buf,
                p,
                line,
            )
        }
        Permit::Refused(r) => Unpacked::Refused(r),
    }
}
