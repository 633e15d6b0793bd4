// One record of metrics, in its two forms.
ghost use Rattle.std.specs.Prelude.{◌≡◌, ◌+◌};
ghost use Rattle.tables.specs.Metrics.{wide_at, narrow_at};

use crate::MetricsUnpacked;
use reads::{byte_at, i16_at, metric_of, reach, u16_at};

// A record of 12 bytes, `offset` bytes after `start`.
pub fn wide_at(s: &[u8], start: usize, offset: usize, big: bool) -> MetricsUnpacked
    ensures { result ≡ wide_at big s.now (start + offset) }
{
    let at = reach(s.len(), start, offset);
    let left = i16_at(s, at, 0, big);
    let right = i16_at(s, at, 2, big);
    let width = i16_at(s, at, 4, big);
    let ascent = i16_at(s, at, 6, big);
    let descent = i16_at(s, at, 8, big);
    let attributes = u16_at(s, at, 10, big);
    MetricsUnpacked {
        left,
        right,
        width,
        ascent,
        descent,
        attributes,
    }
}

// A compressed record, 5 bytes, `offset` bytes after `start`; its attributes are 0.
pub fn narrow_at(s: &[u8], start: usize, offset: usize) -> MetricsUnpacked
    ensures { result ≡ narrow_at s.now (start + offset) }
{
    let at = reach(s.len(), start, offset);
    let left = metric_of(byte_at(s, at, 0));
    let right = metric_of(byte_at(s, at, 1));
    let width = metric_of(byte_at(s, at, 2));
    let ascent = metric_of(byte_at(s, at, 3));
    let descent = metric_of(byte_at(s, at, 4));
    MetricsUnpacked {
        left,
        right,
        width,
        ascent,
        descent,
        attributes: 0,
    }
}
