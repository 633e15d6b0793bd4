// The record's own test, which every call that takes a record makes first, and the limits of arguments after it.
ghost use Rattle.std.specs.Prelude.{◌≡◌};
ghost use Rattle.tables.specs.Fits.{inside, pad_fits, props_fit, metrics_fit, bitmaps_fit, codes_fit, names_fit, record_fits, ladder};

use crate::code_table::entry_count;
use crate::metrics_table::metric_bytes;
use crate::{BitmapData, EncodingData, GlyphNameData, MetricsData, Permit, PropertiesData, Record};
use reads::{Refusal, lies_in};

// Whether `size` bytes from `start` on lie inside `len` bytes.
pub fn is_inside(len: usize, start: usize, size: usize) -> bool
    ensures { result ≡ inside len start size }
{
    lies_in(len, start, 0, size)
}

fn props_fit(len: usize, p: PropertiesData) -> bool
    ensures { result ≡ props_fit len p }
{
    is_inside(len, p.records, 9 * (p.count as usize)) & is_inside(len, p.strings, p.size)
}

fn metrics_fit(len: usize, m: MetricsData) -> bool
    ensures { result ≡ metrics_fit len m }
{
    is_inside(
        len,
        m.records,
        metric_bytes(m.compressed) * (m.count as usize),
    )
}

fn pad_fits(pad: u8) -> bool
    ensures { result ≡ pad_fits pad }
{
    (pad == 1) | (pad == 2) | (pad == 4) | (pad == 8)
}

fn bitmaps_fit(len: usize, b: BitmapData) -> bool
    ensures { result ≡ bitmaps_fit len b }
{
    is_inside(len, b.offsets, 4 * (b.count as usize))
        & is_inside(len, b.bits, b.size)
        & pad_fits(b.pad)
}

fn codes_fit(len: usize, c: EncodingData) -> bool
    ensures { result ≡ codes_fit len c }
{
    let room = is_inside(len, c.entries, c.size);
    let needed = 2 * entry_count(c.low2, c.high2, c.low1, c.high1);
    room & (c.low2 <= c.high2) & (c.low1 <= c.high1) & (needed <= c.size)
}

fn names_fit(len: usize, n: GlyphNameData) -> bool
    ensures { result ≡ names_fit len n }
{
    is_inside(len, n.offsets, 4 * (n.count as usize)) & is_inside(len, n.strings, n.size)
}

// Whether a record serves with `len` bytes: every region inside them, code bounds the right way
// round, room for all code entries, a row pad of 1, 2, 4 or 8. Where it does not, a call answers 6.
pub fn record_fits(len: usize, rec: Record) -> bool
    ensures { result ≡ record_fits len rec }
{
    props_fit(len, rec.props)
        & metrics_fit(len, rec.metrics)
        & bitmaps_fit(len, rec.bitmaps)
        & codes_fit(len, rec.codes)
        & names_fit(len, rec.names)
}

// What the two tests before a drawing say, by what they found: 6 where the record does not fit, then 15 where the
// arguments are not within their limits.
pub fn guard(fits: bool, within: bool) -> Permit
    ensures { result ≡ ladder fits within }
{
    if !fits {
        return Permit::Refused(Refusal {
            number: 6,
            place: 0,
        });
    }
    if !within {
        return Permit::Refused(Refusal {
            number: 15,
            place: 0,
        });
    }
    Permit::Given
}
