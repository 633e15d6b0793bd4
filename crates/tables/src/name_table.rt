// The names table: format, count, offsets, string size, strings.
ghost use Rattle.std.specs.Prelude.{◌≡◌};
ghost use Rattle.tables.specs.Names.{names_at};

use crate::format::{big_bit, format_at};
use crate::{GlyphNameData, TableRead};
use reads::u32_at;

// The table that begins at `at` and whose bytes end at `end`; 6 where its contents run past them.
pub fn names_at(s: &[u8], at: u32, end: usize) -> TableRead
    ensures { result ≡ names_at s.now at end }
{
    let start = at as usize;
    let big = big_bit(format_at(s, start));
    let count = u32_at(s, start, 4, big);
    let before = 8 + 4 * (count as usize);
    let size = u32_at(s, start, before, big) as usize;
    let strings = start + before + 4;
    if end < strings + size {
        return TableRead::Refused(6);
    }
    TableRead::Names(GlyphNameData {
        big,
        count,
        offsets: start + 8,
        strings,
        size,
    })
}
