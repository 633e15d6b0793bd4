// The code table: format, the bounds of the two bytes, the default code, an entry for each code.
ghost use Rattle.std.specs.Prelude.{◌≡◌, ◌+◌, ◌-◌, ◌≤◌};
ghost use Rattle.tables.specs.Codes.{entry_count, codes_at};

use crate::format::{big_bit, format_at};
use crate::{EncodingData, TableRead};
use reads::u16_at;

// How many numbers there are from `low` to `high`.
fn span_of(low: u16, high: u16) -> usize
    ensures value { result ≡ high - low + 1 }
    ensures upper_bound { result ≤ 65536 }
{
    if high < low {
        return 1;
    }
    (high - low) as usize + 1
}

// How many entries bounds make.
pub(crate) fn entry_count(low2: u16, high2: u16, low1: u16, high1: u16) -> usize
    ensures value { result ≡ entry_count low2 high2 low1 high1 }
    ensures upper_bound { result ≤ 4294967296 }
{
    span_of(low2, high2) * span_of(low1, high1)
}

// The table that begins at `at` and whose bytes end at `end`: 6 where its header runs past them, 7
// for a minimum above its maximum, then 6 for the entries.
pub fn codes_at(s: &[u8], at: u32, end: usize) -> TableRead
    ensures { result ≡ codes_at s.now at end }
{
    let start = at as usize;
    if end < start + 14 {
        return TableRead::Refused(6);
    }
    let big = big_bit(format_at(s, start));
    let low2 = u16_at(s, start, 4, big);
    let high2 = u16_at(s, start, 6, big);
    let low1 = u16_at(s, start, 8, big);
    let high1 = u16_at(s, start, 10, big);
    if high2 < low2 {
        return TableRead::Refused(7);
    }
    if high1 < low1 {
        return TableRead::Refused(7);
    }
    let entries = start + 14;
    let size = 2 * entry_count(low2, high2, low1, high1);
    if end < entries + size {
        return TableRead::Refused(6);
    }
    let default = u16_at(s, start, 12, big);
    TableRead::Codes(EncodingData {
        big,
        low2,
        high2,
        low1,
        high1,
        default,
        entries,
        size,
    })
}
