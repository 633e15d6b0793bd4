// The accelerators: 48 bytes.
ghost use Rattle.std.specs.Prelude.{◌≡◌};
ghost use Rattle.tables.specs.Accelerators.{accelerators_table, accelerators_at};

use crate::format::{big_bit, format_at};
use crate::measures::wide_at;
use crate::{AcceleratorUnpacked, TableRead};
use reads::{byte_at, i32_at};

// The table that begins at `at`, as its bytes say.
fn accelerators_table(s: &[u8], at: usize) -> AcceleratorUnpacked
    ensures { result ≡ accelerators_table s.now at }
{
    let format = format_at(s, at);
    let big = big_bit(format);
    let noOverlap = byte_at(s, at, 4);
    let constantMetrics = byte_at(s, at, 5);
    let terminalFont = byte_at(s, at, 6);
    let constantWidth = byte_at(s, at, 7);
    let inkInside = byte_at(s, at, 8);
    let inkMetrics = byte_at(s, at, 9);
    let drawDirection = byte_at(s, at, 10);
    let padding = byte_at(s, at, 11);
    let fontAscent = i32_at(s, at, 12, big);
    let fontDescent = i32_at(s, at, 16, big);
    let maxOverlap = i32_at(s, at, 20, big);
    let minbounds = wide_at(s, at, 24, big);
    let maxbounds = wide_at(s, at, 36, big);
    AcceleratorUnpacked {
        format,
        noOverlap,
        constantMetrics,
        terminalFont,
        constantWidth,
        inkInside,
        inkMetrics,
        drawDirection,
        padding,
        fontAscent,
        fontDescent,
        maxOverlap,
        minbounds,
        maxbounds,
    }
}

// The table that begins at `at` and whose bytes end at `end`; 6 where its contents run past them.
pub fn accelerators_at(s: &[u8], at: u32, end: usize) -> TableRead
    ensures { result ≡ accelerators_at s.now at end }
{
    let start = at as usize;
    if end < start + 48 {
        return TableRead::Refused(6);
    }
    TableRead::Accelerators(accelerators_table(s, start))
}
