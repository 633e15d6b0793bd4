// The rows of a glyph's bitmap, without their padding, as hexadecimal digits.
ghost use Rattle.std.specs.Prelude.{◌≡◌, ◌+◌, ◌*◌, ◌≤◌, max, length};
ghost use Rattle.bitmaps.specs.Units.{order_of};
ghost use Rattle.bitmaps.specs.Rows.{row_bytes};
ghost use Rattle.bitmaps.specs.Picture.{bits_of};
ghost use Rattle.frames.specs.Hex.{hex_all, field};
ghost use Rattle.frames.specs.Frames.{row_from, glyph_rows};
ghost use Rattle.frames.specs.Wrote.{Wrote};

use crate::line::Line;
use bitmaps::{offset_of, row_byte, row_bytes, row_stride};
use place::GlyphInfo;
use tables::BitmapData;

// How many bytes all rows have together.
pub(crate) fn rows_size(width: u16, height: u16) -> usize
    ensures value { result ≡ height * row_bytes width }
    ensures upper_bound { result ≤ 536870912 }
{
    (height as usize) * (row_bytes(width) as usize)
}

// The digits of the row that begins at byte `row` of the bitmap data: `count` times eight columns.
fn put_row(s: &[u8], b: BitmapData, row: usize, count: usize, line: &mut Line<'_>)
    requires { line.old.at + 2 * count ≤ length line.old.out.now }
    ensures { Wrote line.old.out line.old.at (hex_all (row_from (bits_of s.now b) (order_of b) row 0 count)) line.new.out line.new.at }
{
    for j in 0..count {
        line.byte(row_byte(s, b, row, j));
    }
}

// The digits of all rows. A row begins a stride after the one above it, its padding is not written.
fn put_rows(s: &[u8], b: BitmapData, i: GlyphInfo, line: &mut Line<'_>)
    requires { line.old.at + 2 * (i.height * row_bytes i.width) ≤ length line.old.out.now }
    ensures { Wrote line.old.out line.old.at (hex_all (glyph_rows s.now b i)) line.new.out line.new.at }
{
    let count = row_bytes(i.width) as usize;
    let stride = row_stride(i.width, b.pad) as usize;
    let first = offset_of(s, b, i.glyph) as usize;
    for k in 0..i.height {
        let above = k as usize * stride;
        put_row(s, b, first + above, count, line);
    }
}

// The field of all rows: a dash where there is no row byte.
#[tactic(auto, using(crate::proofs::Writing::picture))]
pub(crate) fn put_picture(s: &[u8], b: BitmapData, i: GlyphInfo, line: &mut Line<'_>)
    requires { line.old.at + max 1 (2 * (i.height * row_bytes i.width)) ≤ length line.old.out.now }
    ensures { Wrote line.old.out line.old.at (field (glyph_rows s.now b i)) line.new.out line.new.at }
{
    if rows_size(i.width, i.height) == 0 {
        line.character(b'-');
    } else {
        put_rows(s, b, i, line);
    }
}
