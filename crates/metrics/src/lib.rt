// A glyph's metrics, and the accelerators with the bounds of all glyphs.
#![tactic(auto)]

ghost use Rattle.std.specs.Prelude.{◌≡◌, ◌+◌, ◌≤◌, length};
ghost use Rattle.tables.specs.Metrics.{narrow_at};
ghost use Rattle.metrics.specs.Measure.{measured_at, metrics_of, get_metrics, get_accelerators};

use reads::{GlyphIndex, Refusal, lies_in, metric_of};
use tables::{
    AcceleratorUnpacked, MetricsData, MetricsUnpacked, Record, metric_bytes, narrow_at,
    record_fits, wide_at,
};

// The metrics of a glyph.
#[derive(Clone, Copy)]
pub enum Measured {
    Metrics(MetricsUnpacked),
    Refused(Refusal),
}

// What the font says of all its glyphs together.
#[derive(Clone, Copy)]
pub enum Accelerated {
    Accelerators(AcceleratorUnpacked),
    Refused(Refusal),
}

// A record of either form, `offset` bytes after `start`.
fn measured_at(
    s: &[u8],
    start: usize,
    offset: usize,
    compressed: bool,
    big: bool,
) -> MetricsUnpacked
    ensures { result ≡ measured_at compressed big s.now (start + offset) }
{
    if compressed {
        narrow_at(s, start, offset)
    } else {
        wide_at(s, start, offset, big)
    }
}

// The metrics of a glyph in the table of these numbers, or 10. Bytes past the end read as 0.
fn metrics_in(
    s: &[u8],
    big: bool,
    compressed: bool,
    count: u32,
    records: usize,
    g: GlyphIndex,
) -> Measured
    ensures { result ≡ metrics_of s.now (record { big = big; compressed = compressed; count = count; records = records }) g.0 }
{
    let i = g.0 as u32;
    if count <= i {
        return Measured::Refused(Refusal {
            number: 10,
            place: 0,
        });
    }
    let offset = metric_bytes(compressed) * (i as usize);
    Measured::Metrics(measured_at(s, records, offset, compressed, big))
}

// A compressed record that lies in the bytes.
fn narrow_inside(s: &[u8], at: usize) -> MetricsUnpacked
    requires { at + 5 ≤ length s.now }
    ensures { result ≡ narrow_at s.now at }
{
    let left = metric_of(s[at]);
    let right = metric_of(s[at + 1]);
    let width = metric_of(s[at + 2]);
    let ascent = metric_of(s[at + 3]);
    let descent = metric_of(s[at + 4]);
    MetricsUnpacked {
        left,
        right,
        width,
        ascent,
        descent,
        attributes: 0,
    }
}

// The same as `metrics_in`, and short enough to be compiled into every place that asks: with metrics of the
// usual form one test replaces that of each byte.
pub fn metrics_of(s: &[u8], m: MetricsData, g: GlyphIndex) -> Measured
    ensures { result ≡ metrics_of s.now m g.0 }
{
    if m.compressed {
        if (g.0 as u32) < m.count {
            let offset = 5 * (g.0 as usize);
            if lies_in(s.len(), m.records, offset, 5) {
                return Measured::Metrics(narrow_inside(s, m.records + offset));
            }
        }
    }
    metrics_in(s, m.big, m.compressed, m.count, m.records, g)
}

// A glyph's metrics, whatever they are: 11 is for those who place it. Refused, both with place 0: 6
// for a record that fails its test with these bytes (`tables::record_fits`), 10 for a glyph at or
// above the metrics count.
pub fn get_metrics(bytes: &[u8], rec: Record, glyph: GlyphIndex) -> Measured
    ensures { result ≡ get_metrics bytes.now rec glyph.0 }
{
    if record_fits(bytes.len(), rec) {
        let m = rec.metrics;
        metrics_in(bytes, m.big, m.compressed, m.count, m.records, glyph)
    } else {
        Measured::Refused(Refusal {
            number: 6,
            place: 0,
        })
    }
}

// The accelerators, the bounds of all glyphs among them. Refused with 6, place 0, for a record that
// fails its test with these bytes (`tables::record_fits`).
pub fn get_accelerators(bytes: &[u8], rec: Record) -> Accelerated
    ensures { result ≡ get_accelerators bytes.now rec }
{
    if record_fits(bytes.len(), rec) {
        let accel = rec.accel;
        Accelerated::Accelerators(accel)
    } else {
        Accelerated::Refused(Refusal {
            number: 6,
            place: 0,
        })
    }
}
