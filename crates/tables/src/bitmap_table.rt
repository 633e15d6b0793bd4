// The bitmap table: format, count, offsets, four sizes, the data.
ghost use Rattle.std.specs.Prelude.{◌≡◌};
ghost use Rattle.tables.specs.Bitmaps.{bitmaps_at};

use crate::format::{big_bit, format_at, pad_code, pad_of, top_bit, unit_code};
use crate::{BitmapData, TableRead};
use reads::u32_at;

// The table that begins at `at` and whose bytes end at `end`; 6 where its contents run past them.
pub fn bitmaps_at(s: &[u8], at: u32, end: usize) -> TableRead
    ensures { result ≡ bitmaps_at s.now at end }
{
    let start = at as usize;
    let format = format_at(s, start);
    let big = big_bit(format);
    let count = u32_at(s, start, 4, big);
    let sizes = start + (8 + 4 * (count as usize));
    let size = u32_at(s, sizes, 4 * pad_code(format), big) as usize;
    let bits = sizes + 16;
    if end < bits + size {
        return TableRead::Refused(6);
    }
    let pad = pad_of(format);
    let unit = unit_code(format);
    let top = top_bit(format);
    TableRead::Bitmaps(BitmapData {
        big,
        count,
        offsets: start + 8,
        bits,
        size,
        pad,
        unit,
        top,
    })
}
