// The bits of a row, whatever order its table writes them in.
ghost use Rattle.std.specs.Prelude.{◌≡◌, ◌*◌, ◌<◌};
ghost use Rattle.bitmaps.specs.Units.{order_of, unit_bytes, byte_of, row_byte, turned, shown_byte};
ghost use Rattle.bitmaps.specs.Rows.{row_bytes, row_end, column};

use crate::Order;
use tables::BitmapData;

// Each half byte with its four bits in the other order.
const HALVES: [u8; 16] = [0, 8, 4, 12, 2, 10, 6, 14, 1, 9, 5, 13, 3, 11, 7, 15];

// The order of a table's rows.
pub fn order_of(b: BitmapData) -> Order
    ensures { result ≡ order_of b }
{
    Order {
        unit: b.unit,
        big: b.big,
        top: b.top,
    }
}

// How many bytes a scan unit of this code has.
pub(crate) fn unit_bytes(code: u8) -> u8
    ensures { result ≡ unit_bytes code }
{
    if code == 0 {
        return 1;
    }
    if code == 1 {
        return 2;
    }
    4
}

// How many bytes hold a row's columns, eight to a byte.
pub fn row_bytes(width: u16) -> u32
    ensures { result ≡ row_bytes width }
{
    (width as u32 + 7) / 8
}

// How many bytes from a row's start on hold its columns. Where the byte order of a unit is not the order of its
// columns, its first column stands in its last byte, and the last unit counts whole.
pub(crate) fn row_end(o: Order, width: u16) -> u32
    ensures { result ≡ row_end o width }
{
    let bytes = row_bytes(width);
    if o.unit == 0 {
        return bytes;
    }
    if o.big == o.top {
        return bytes;
    }
    if o.unit == 1 {
        return (bytes + 1) / 2 * 2;
    }
    (bytes + 3) / 4 * 4
}

// Which byte of a row holds columns 8j to 8j + 7.
pub fn held_byte(o: Order, j: usize) -> usize
    ensures { result ≡ byte_of o (8 * j) }
{
    if (o.unit == 0) | (o.big == o.top) {
        return j;
    }
    if o.unit == 1 {
        return j / 2 * 2 + (1 - j % 2);
    }
    j / 4 * 4 + (3 - j % 4)
}

// A half byte with its bits in the other order.
fn reversed_half(n: usize) -> u8
    requires { n < 16 }
    ensures { result ≡ turned 4 n }
{
    HALVES[n]
}

// A byte with its bits in the other order.
fn reversed(byte: u8) -> u8
    ensures { result ≡ turned 8 byte }
{
    let low = reversed_half((byte % 16) as usize);
    let high = reversed_half((byte / 16) as usize);
    low * 16 + high
}

// A byte of a row with its leftmost column at the top.
pub fn shown(o: Order, byte: u8) -> u8
    ensures { result ≡ shown_byte o byte }
{
    if o.top {
        return byte;
    }
    reversed(byte)
}

// The byte with columns 8j to 8j + 7 of a row of which these are the bytes, top bit leftmost; 0 where it lies
// past their end.
pub(crate) fn read_byte(row: &[u8], o: Order, j: usize) -> u8
    ensures { result ≡ row_byte row.now o 0 j }
{
    let k = held_byte(o, j);
    if row.len() <= k {
        return 0;
    }
    shown(o, row[k])
}

// The bit at column k of a byte, the top bit being column 0. Past column 7 it is the lowest bit.
pub fn bit_of(byte: u8, k: usize) -> bool
    ensures { result ≡ column byte k }
{
    if 7 < k {
        return byte % 2 == 1;
    }
    (byte >> (7 - k)) % 2 == 1
}
