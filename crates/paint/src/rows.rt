// A glyph's rows. They are taken byte by byte of a row, and for each byte row by row: which byte of a row holds eight
// columns, and how many of them are drawn, is then the same for all rows. The buffer here begins where the glyph is
// drawn.
ghost use Rattle.std.specs.Prelude.{◌≡◌, false, ◌≤◌, min, length};
ghost use Rattle.bitmaps.specs.Place.{place_at};
ghost use Rattle.bitmaps.specs.Paint.{painted};
ghost use Rattle.bitmaps.specs.Rows.{row_end};
ghost use Rattle.bitmaps.specs.Ink.{in_rows, rows_past, row_bits, byte_bits, RowsIn};

use crate::columns::{byte_columns, first_columns};
use bitmaps::{Order, held_byte, row_bytes, shown};

// Colours one byte of each of n rows, its first m columns, of which row r's stands at byte `first` + r × `step` of the
// file. Any place here is far below 2^60, so no sum leaves 64 bits.
fn strip(
    s: &[u8],
    order: Order,
    first: usize,
    step: u32,
    m: usize,
    n: u16,
    buf: &mut [u32],
    at: usize,
    stride: u16,
    scale: u8,
    colour: u32,
)
    requires le_scale { (1 ≤ scale) × (1 ≤ m) × (at ≤ 1152921504606846976) × RowsIn s.now first step 1 n }
    requires buf_value { rows_past (byte_bits s.now order first step) (place_at at stride scale) (min 8 m) n (length buf.old) ≡ false }
    ensures { buf.new ≡ painted (in_rows (byte_bits s.now order first step) (place_at at stride scale) (min 8 m) n) colour buf.old }
{
    let mut r = 0;
    while r < n as usize {
        let held = s[first + r * step as usize];
        // A blank byte is looked at no further.
        if held != 0 {
            let byte = first_columns(shown(order, held), m);
            byte_columns(
                &mut *buf,
                byte,
                at + r * stride as usize * scale as usize,
                stride,
                scale,
                colour,
            );
        }
        r += 1;
    }
}

// Colours the n rows of which row r begins at byte `first` + r × `step` of the file.
pub(crate) fn glyph_rows(
    s: &[u8],
    order: Order,
    first: usize,
    step: u32,
    width: u16,
    n: u16,
    buf: &mut [u32],
    stride: u16,
    scale: u8,
    colour: u32,
)
    requires le_scale { (1 ≤ scale) × (1 ≤ n) × RowsIn s.now first step (row_end order width) n }
    requires buf_value { rows_past (row_bits s.now order first step) (place_at 0 stride scale) width n (length buf.old) ≡ false }
    ensures { buf.new ≡ painted (in_rows (row_bits s.now order first step) (place_at 0 stride scale) width n) colour buf.old }
{
    let columns = width as usize;
    let count = row_bytes(width) as usize;
    let mut j = 0;
    while j < count {
        let c = 8 * j;
        strip(
            s,
            order,
            first + held_byte(order, j),
            step,
            columns - c,
            n,
            &mut *buf,
            c * scale as usize,
            stride,
            scale,
            colour,
        );
        j += 1;
    }
}
