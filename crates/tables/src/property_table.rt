// The property table: format, count, 9 bytes for each, padding to 4, string size, strings.
ghost use Rattle.std.specs.Prelude.{◌≡◌, ◌+◌, ◌≤◌, ◌<◌};
ghost use Rattle.tables.specs.Properties.{padded4, properties_at};

use crate::format::{big_bit, format_at};
use crate::{PropertiesData, TableRead};
use reads::u32_at;

// `n` raised to a multiple of 4.
fn padded_4(n: usize) -> usize
    requires { n < 1099511627776 }
    ensures value { result ≡ padded4 n }
    ensures upper_bound { result ≤ n + 3 }
{
    (n + 3) / 4 * 4
}

// The table that begins at `at` and whose bytes end at `end`; 6 where its contents run past them.
pub fn properties_at(s: &[u8], at: u32, end: usize) -> TableRead
    ensures { result ≡ properties_at s.now at end }
{
    let start = at as usize;
    let big = big_bit(format_at(s, start));
    let count = u32_at(s, start, 4, big);
    let before = padded_4(8 + 9 * (count as usize));
    let size = u32_at(s, start, before, big) as usize;
    let strings = start + before + 4;
    if end < strings + size {
        return TableRead::Refused(6);
    }
    TableRead::Properties(PropertiesData {
        big,
        count,
        records: start + 8,
        strings,
        size,
    })
}
