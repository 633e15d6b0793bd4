// Unpacking a glyph's bitmap into bytes 0 and 1: 1 is stored for each set bit of every whole row byte,
// and every other byte of the buffer stays as it was. Whatever can refuse is decided first, as
// `outcome::unpacked_at` decides it.
#![tactic(auto)]

ghost use Rattle.std.specs.Prelude.{◌≡◌, false, ◌≤◌, length};
ghost use Rattle.bitmaps.specs.Place.{place_at};
ghost use Rattle.bitmaps.specs.Paint.{painted};
ghost use Rattle.bitmaps.specs.Rows.{row_end, column};
ghost use Rattle.bitmaps.specs.Ink.{in_rows, rows_past, row_bits, byte_bits, RowsIn};
ghost use Rattle.bitmaps.specs.Unpack.{whole_columns, unpacked_at, unpacked_leaves};
ghost use Rattle.unpack.specs.Stored.{in_bits, bits_past};

use bitmaps::{
    Order, Unpacked, bytes_past, held_byte, offset_of, order_of, row_bytes, row_stride, shown,
    unreadable,
};
use outcome::{corner_past, rows_past};
use reads::{GlyphIndex, Refusal};
use tables::BitmapData;

// Stores 1 for each set bit of a byte of which column 0 goes to `at`, from one to the next: as many columns are blank
// before the first as the byte has leading zeros.
fn unpack_byte(buf: &mut [u8], byte: u8, at: usize)
    requires { bits_past (column byte) at 8 (length buf.old) ≡ false }
    ensures { buf.new ≡ painted (in_bits (column byte) at 8) 1 buf.old }
{
    let mut left = byte;
    while left != 0 {
        let blank = u8::leading_zeros(left);
        buf[at + blank as usize] = 1;
        left = left - (128 >> blank);
    }
}

// Unpacks one byte of each of n rows, of which row r's stands at byte `first` + r × `step` of the file. Any place here
// is far below 2^60, so no sum leaves 64 bits.
fn strip(
    s: &[u8],
    order: Order,
    first: usize,
    step: u32,
    n: u16,
    buf: &mut [u8],
    at: usize,
    stride: u16,
)
    requires at_bound { (at ≤ 1152921504606846976) × RowsIn s.now first step 1 n }
    requires buf_value { rows_past (byte_bits s.now order first step) (place_at at stride 1) 8 n (length buf.old) ≡ false }
    ensures { buf.new ≡ painted (in_rows (byte_bits s.now order first step) (place_at at stride 1) 8 n) 1 buf.old }
{
    let mut r = 0;
    let mut k = first;
    while r < n as usize {
        let held = s[k];
        // A blank byte is looked at no further.
        if held != 0 {
            unpack_byte(&mut *buf, shown(order, held), at + r * stride as usize);
        }
        k += step as usize;
        r += 1;
    }
}

// Unpacks the n rows of which row r begins at byte `first` + r × `step` of the file: byte by byte of a row, and for
// each byte row by row, since which byte holds eight columns is the same for all rows.
fn unpack_rows(
    s: &[u8],
    order: Order,
    first: usize,
    step: u32,
    width: u16,
    n: u16,
    buf: &mut [u8],
    stride: u16,
)
    requires le_n { (1 ≤ n) × RowsIn s.now first step (row_end order width) n }
    requires buf_value { rows_past (row_bits s.now order first step) (place_at 0 stride 1) (whole_columns width) n (length buf.old) ≡ false }
    ensures { buf.new ≡ painted (in_rows (row_bits s.now order first step) (place_at 0 stride 1) (whole_columns width) n) 1 buf.old }
{
    let count = row_bytes(width) as usize;
    let mut j = 0;
    while j < count {
        strip(
            s,
            order,
            first + held_byte(order, j),
            step,
            n,
            &mut *buf,
            8 * j,
            stride,
        );
        j += 1;
    }
}

// Unpacks glyph g, of this width and height, at place p, or refuses 13, 14, 16 and stores nothing. Takes the
// table's numbers as they are, and does not ask whether g has a bitmap. The tests are those of `outcome::unpacked_at`,
// made here so that where the rows stand is found once, for them and for the unpacking.
pub fn unpack_at(
    s: &[u8],
    b: BitmapData,
    g: GlyphIndex,
    width: u16,
    height: u16,
    buf: &mut [u8],
    p: usize,
    stride: u16,
) -> Unpacked
    ensures value { result ≡ unpacked_at s.now b g.0 width height (length buf.old) p stride }
    ensures buf_after { buf.new ≡ unpacked_leaves s.now b g.0 width p stride result buf.old }
{
    if unreadable(b) {
        return Unpacked::Refused(Refusal {
            number: 13,
            place: 0,
        });
    }
    // Without a row or a column there is nothing to test, nor to store.
    if (height == 0) | (width == 0) {
        return Unpacked::Rows(height);
    }
    let first = offset_of(s, b, g);
    let step = row_stride(width, b.pad);
    if bytes_past(s, b, first, step, width, height) {
        return Unpacked::Refused(Refusal {
            number: 14,
            place: 0,
        });
    }
    let from = b.bits + first as usize;
    let columns = 8 * row_bytes(width);
    if corner_past(columns, height, buf.len(), p, stride, 1) {
        if rows_past(
            s,
            order_of(b),
            from,
            step,
            columns,
            height,
            buf.len(),
            p,
            stride,
            1,
        ) {
            return Unpacked::Refused(Refusal {
                number: 16,
                place: 0,
            });
        }
    }
    if p <= buf.len() {
        unpack_rows(
            s,
            order_of(b),
            from,
            step,
            width,
            height,
            &mut buf[p..],
            stride,
        );
    }
    Unpacked::Rows(height)
}
