// A table's format word, and what its bits say. Bits are named by their value.
ghost use Rattle.std.specs.Prelude.{◌≡◌, ◌<◌};
ghost use Rattle.tables.specs.Format.{format_at, big_bit, compressed_bit, top_bit, pad_code, pad_of, unit_code};

use reads::u32_at;

pub(crate) fn format_at(s: &[u8], at: usize) -> u32
    ensures { result ≡ format_at s.now at }
{
    u32_at(s, at, 0, false)
}

// Bit 4: most significant byte first.
pub(crate) fn big_bit(format: u32) -> bool
    ensures { result ≡ big_bit format }
{
    format / 4 % 2 == 1
}

// Bit 256, of metrics: compressed records.
pub(crate) fn compressed_bit(format: u32) -> bool
    ensures { result ≡ compressed_bit format }
{
    format / 256 % 2 == 1
}

// Bit 8, of bitmaps: a scan unit's top bit is its leftmost.
pub(crate) fn top_bit(format: u32) -> bool
    ensures { result ≡ top_bit format }
{
    format / 8 % 2 == 1
}

// Which of the four bitmap sizes holds, and the row pad's logarithm.
pub(crate) fn pad_code(format: u32) -> usize
    ensures value { result ≡ pad_code format }
    ensures upper_bound { result < 4 }
{
    (format % 4) as usize
}

// The row pad in bytes: 1, 2, 4 or 8.
pub(crate) fn pad_of(format: u32) -> u8
    ensures { result ≡ pad_of format }
{
    let c = format % 4;
    if c == 0 {
        return 1;
    }
    if c == 1 {
        return 2;
    }
    if c == 2 {
        return 4;
    }
    8
}

// The scan unit bits, 16 and 32.
pub(crate) fn unit_code(format: u32) -> u8
    ensures { result ≡ unit_code format }
{
    (format / 16 % 4) as u8
}
