// The metrics table. Its byte order and the form of its records are the directory's to say.
ghost use Rattle.std.specs.Prelude.{◌≡◌, ◌≤◌};
ghost use Rattle.tables.specs.Metrics.{metric_bytes, metrics_from, metric_count, metrics_at};

use crate::format::{big_bit, compressed_bit};
use crate::{MetricsData, TableRead};
use reads::{u16_at, u32_at};

// How many bytes a record takes.
pub fn metric_bytes(compressed: bool) -> usize
    ensures value { result ≡ metric_bytes compressed }
    ensures upper_bound { result ≤ 12 }
{
    if compressed { 5 } else { 12 }
}

// Where the records begin, counted from the table's start.
fn metrics_from(compressed: bool) -> usize
    ensures value { result ≡ metrics_from compressed }
    ensures upper_bound { result ≤ 8 }
{
    if compressed { 6 } else { 8 }
}

fn metric_count(s: &[u8], at: usize, compressed: bool, big: bool) -> u32
    ensures { result ≡ metric_count compressed big s.now at }
{
    if compressed {
        u16_at(s, at, 4, big) as u32
    } else {
        u32_at(s, at, 4, big)
    }
}

// The table that begins at `at` and whose bytes end at `end`; 6 where its contents run past them.
// `format` is the directory's.
pub fn metrics_at(s: &[u8], format: u32, at: u32, end: usize) -> TableRead
    ensures { result ≡ metrics_at s.now format at end }
{
    let start = at as usize;
    let big = big_bit(format);
    let compressed = compressed_bit(format);
    let count = metric_count(s, start, compressed, big);
    let records = start + metrics_from(compressed);
    if end < records + metric_bytes(compressed) * (count as usize) {
        return TableRead::Refused(6);
    }
    TableRead::Metrics(MetricsData {
        big,
        compressed,
        count,
        records,
    })
}
