// Where a glyph's rows stand in the bitmap data, and which of their bytes there are. Widths and numbers
// of rows are 16 bits wide, so that no sum of theirs leaves a usize. Nothing here tests the record:
// bytes past the end read as 0.
ghost use Rattle.std.specs.Prelude.{◌≡◌, length};
ghost use Rattle.bitmaps.specs.Units.{order_of, row_byte};
ghost use Rattle.bitmaps.specs.Rows.{row_stride, bytes_past};
ghost use Rattle.bitmaps.specs.Ink.{row_start};
ghost use Rattle.bitmaps.specs.Picture.{no_bitmap, unreadable, bits_of, offset_of, rows_short};

use crate::units::{order_of, read_byte, row_bytes, row_end, unit_bytes};
use reads::{GlyphIndex, u32_at};
use tables::BitmapData;

// Whether 12 refuses this glyph: the table has no bitmap for it.
pub fn no_bitmap(b: BitmapData, g: GlyphIndex) -> bool
    ensures { result ≡ no_bitmap b g.0 }
{
    b.count <= g.0 as u32
}

// Whether 13 refuses every picture of this table: the scan unit code is none of 0, 1, 2, or a unit is wider
// than the row pad.
pub fn unreadable(b: BitmapData) -> bool
    ensures { result ≡ unreadable b }
{
    // Nearly all tables have units of one byte.
    if b.unit == 0 {
        return b.pad == 0;
    }
    (2 < b.unit) | (b.pad < unit_bytes(b.unit))
}

// How many bytes the bitmap data has in these bytes.
fn data_size(s: &[u8], b: BitmapData) -> usize
    ensures { result ≡ length (bits_of s.now b) }
{
    let size = b.size;
    if s.len() < b.bits {
        return 0;
    }
    let left = s.len() - b.bits;
    if left < size {
        return left;
    }
    size
}

// How many bytes lie between the starts of two rows. The usual paddings are told apart, since dividing by a
// number that the compiler knows takes no division.
pub fn row_stride(width: u16, pad: u8) -> u32
    ensures { result ≡ row_stride width pad }
{
    let unit = pad as u32;
    if unit == 0 {
        return 0;
    }
    let bytes = row_bytes(width);
    if unit == 1 {
        return bytes;
    }
    if unit == 4 {
        return (bytes + 3) / 4 * 4;
    }
    (bytes + (unit - 1)) / unit * unit
}

// Where a glyph's rows begin in the bitmap data.
pub fn offset_of(s: &[u8], b: BitmapData, g: GlyphIndex) -> u32
    ensures { result ≡ offset_of s.now b g.0 }
{
    u32_at(s, b.offsets, 4 * (g.0 as usize), b.big)
}

// The byte with columns 8j to 8j + 7 of the row that begins at byte `row` of the bitmap data, top bit
// leftmost; 0 where it lies past the data's end.
pub fn row_byte(s: &[u8], b: BitmapData, row: usize, j: usize) -> u8
    ensures { result ≡ row_byte (bits_of s.now b) (order_of b) row j }
{
    let size = data_size(s, b);
    if size <= row {
        return 0;
    }
    let from = b.bits + row;
    let end = b.bits + size;
    read_byte(&s[from..end], order_of(b), j)
}

// Whether 14 refuses n rows of this width, of which row r begins at byte `first` + r × `step` of the bitmap data. One
// comparison: the farthest byte that the last row needs lies behind all the others.
pub fn bytes_past(s: &[u8], b: BitmapData, first: u32, step: u32, width: u16, n: u16) -> bool
    ensures { result ≡ bytes_past (length (bits_of s.now b)) (order_of b) (row_start first step) width n }
{
    if n == 0 {
        return false;
    }
    if width == 0 {
        return false;
    }
    let rows = (n as usize - 1) * step as usize;
    let end = row_end(order_of(b), width) as usize;
    data_size(s, b) < first as usize + rows + end
}

// Whether 14 refuses the first n rows of a glyph of this width.
pub fn rows_short(s: &[u8], b: BitmapData, g: GlyphIndex, width: u16, n: u16) -> bool
    ensures { result ≡ rows_short s.now b g.0 width n }
{
    bytes_past(s, b, offset_of(s, b, g), row_stride(width, b.pad), width, n)
}
