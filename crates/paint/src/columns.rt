// The set bits of one byte of a row.
ghost use Rattle.std.specs.Prelude.{◌≡◌, false, ◌≤◌, length};
ghost use Rattle.bitmaps.specs.Place.{place_at};
ghost use Rattle.bitmaps.specs.Paint.{painted};
ghost use Rattle.bitmaps.specs.Rows.{column};
ghost use Rattle.bitmaps.specs.Ink.{in_row, row_past};
ghost use Rattle.paint.specs.Ink.{FirstColumns};

use crate::bar::bar;

// A byte with its first m columns, and no other set.
pub(crate) fn first_columns(byte: u8, m: usize) -> u8
    requires { 1 ≤ m }
    ensures { FirstColumns byte m result }
{
    if m < 8 {
        let k = 8 - m as u32;
        return byte >> k << k;
    }
    byte
}

// Colours the block of each set bit, from one to the next: as many columns are blank before the first as the byte has
// leading zeros.
fn bit_blocks(buf: &mut [u32], byte: u8, at: usize, stride: u16, scale: u8, colour: u32)
    requires le_scale { 1 ≤ scale }
    requires buf_value { row_past (column byte) (place_at at stride scale) 8 (length buf.old) ≡ false }
    ensures { buf.new ≡ painted (in_row (column byte) (place_at at stride scale) 8) colour buf.old }
{
    let side = scale as usize;
    let mut left = byte;
    while left != 0 {
        let blank = u8::leading_zeros(left);
        bar(
            &mut *buf,
            at + blank as usize * side,
            stride,
            scale,
            side,
            colour,
        );
        left = left - (128 >> blank);
    }
}

// Colours each run of set bits as one bar, from one to the next.
fn run_bars(buf: &mut [u32], byte: u8, at: usize, stride: u16, scale: u8, colour: u32)
    requires le_scale { 1 ≤ scale }
    requires buf_value { row_past (column byte) (place_at at stride scale) 8 (length buf.old) ≡ false }
    ensures { buf.new ≡ painted (in_row (column byte) (place_at at stride scale) 8) colour buf.old }
{
    let side = scale as usize;
    let mut left = byte;
    let mut next = at;
    while left != 0 {
        let blank = u8::leading_zeros(left);
        let top = left << blank;
        let run = u8::leading_zeros(255 - top);
        let here = next + blank as usize * side;
        let long = run as usize * side;
        bar(&mut *buf, here, stride, scale, long, colour);
        next = here + long;
        left = top << (run - 1) << 1;
    }
}

// Colours the set bits of a byte. With a scale that the compiler knows it writes a bit's block out; at the large ones,
// which it does not know, a run of set bits is one bar.
pub(crate) fn byte_columns(
    buf: &mut [u32],
    byte: u8,
    at: usize,
    stride: u16,
    scale: u8,
    colour: u32,
)
    requires le_scale { 1 ≤ scale }
    requires buf_value { row_past (column byte) (place_at at stride scale) 8 (length buf.old) ≡ false }
    ensures { buf.new ≡ painted (in_row (column byte) (place_at at stride scale) 8) colour buf.old }
{
    match scale {
        1 => bit_blocks(&mut *buf, byte, at, stride, 1, colour),
        2 => bit_blocks(&mut *buf, byte, at, stride, 2, colour),
        3 => bit_blocks(&mut *buf, byte, at, stride, 3, colour),
        4 => bit_blocks(&mut *buf, byte, at, stride, 4, colour),
        5 => bit_blocks(&mut *buf, byte, at, stride, 5, colour),
        6 => bit_blocks(&mut *buf, byte, at, stride, 6, colour),
        7 => bit_blocks(&mut *buf, byte, at, stride, 7, colour),
        8 => bit_blocks(&mut *buf, byte, at, stride, 8, colour),
        _ => run_bars(&mut *buf, byte, at, stride, scale, colour),
    }
}
