// 16: whether a pixel to colour lies beyond the buffer. Places here count from where the glyph is drawn,
// and `room` is how many pixels the buffer has from there on.
ghost use Rattle.std.specs.Prelude.{◌≡◌, ◌+◌, ◌-◌, ◌≤◌};
ghost use Rattle.bitmaps.specs.Place.{place_at};
ghost use Rattle.bitmaps.specs.Units.{bit_at};
ghost use Rattle.bitmaps.specs.Ink.{row_past, rows_past, every_bit, row_bits};

use bitmaps::{Order, bit_of, held_byte, shown};
use reads::byte_at;

// The bit at column c of the row that begins `row` bytes after `first`; bytes past the end count 0.
fn bit_at(s: &[u8], order: Order, first: usize, row: usize, c: usize) -> bool
    requires { (row ≤ 1152921504606846976) × (c ≤ 1152921504606846976) }
    ensures { result ≡ bit_at s.now order (first + row) c }
{
    let byte = byte_at(s, first, row + held_byte(order, c / 8));
    bit_of(shown(order, byte), c % 8)
}

// Whether a set bit of that row, drawn at `at`, has a pixel past the room. Bits are looked at only where
// the block of the last column does not fit. Any row's place is far below 2^60, so no sum leaves 64 bits.
fn row_past(
    s: &[u8],
    order: Order,
    first: usize,
    row: usize,
    at: usize,
    columns: u32,
    room: usize,
    stride: u16,
    scale: u8,
) -> bool
    requires { (1 ≤ scale) × (row ≤ 1152921504606846976) × (at ≤ 1152921504606846976) }
    ensures { result ≡ row_past (bit_at s.now order (first + row)) (place_at at stride scale) columns room }
{
    let side = scale as usize;
    let down = (side - 1) * stride as usize;
    let count = columns as usize;
    if at + down + count * side <= room {
        return false;
    }
    let mut c = 0;
    while c < count {
        if bit_at(s, order, first, row, c) & (room < at + c * side + down + side) {
            return true;
        }
        c += 1;
    }
    false
}

// How many places a buffer has from p on.
pub(crate) fn room_from(len: usize, p: usize) -> usize
    ensures { result ≡ len - p }
{
    if len < p {
        return 0;
    }
    len - p
}

// Whether 16 would refuse n rows of this many columns drawn at p if every bit were set. One comparison: the last row's
// last block lies behind all the others. Where it fits, no bit has to be looked at.
pub fn corner_past(columns: u32, n: u16, len: usize, p: usize, stride: u16, scale: u8) -> bool
    ensures { result ≡ rows_past every_bit (place_at p stride scale) columns n len }
{
    if n == 0 {
        return false;
    }
    if columns == 0 {
        return false;
    }
    if scale == 0 {
        return false;
    }
    let side = scale as usize;
    let line = stride as usize;
    room_from(len, p) < (n as usize - 1) * line * side + (side - 1) * line + columns as usize * side
}

// Whether 16 refuses n rows and `columns` columns drawn at p, of which row r begins at byte `first` + r × `step`;
// bytes past the end count 0. The search row by row, for those whose corner does not fit.
pub fn rows_past(
    s: &[u8],
    order: Order,
    first: usize,
    step: u32,
    columns: u32,
    n: u16,
    len: usize,
    p: usize,
    stride: u16,
    scale: u8,
) -> bool
    ensures { result ≡ rows_past (row_bits s.now order first step) (place_at p stride scale) columns n len }
{
    if scale == 0 {
        return false;
    }
    let room = room_from(len, p);
    let mut r = 0;
    while r < n as usize {
        if row_past(
            s,
            order,
            first,
            r * step as usize,
            r * stride as usize * scale as usize,
            columns,
            room,
            stride,
            scale,
        ) {
            return true;
        }
        r += 1;
    }
    false
}
