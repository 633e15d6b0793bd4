// The box of a glyph: how large its bitmap is, and where it stands against the pen and the line's top.
ghost use Rattle.std.specs.Prelude.{◌≡◌, true};
ghost use Rattle.std.specs.Int.Signed.{le_z};
ghost use Rattle.place.specs.Info.{placeable, box_of, boxed, info_of, prepared, prep_char};

use crate::bounds::{height_of, in_range, is_natural, natural_i16, natural_i32};
use crate::{CharPrepared, GlyphInfo, Prepared};
use lookup::{Served, glyph_of, or_stand_in};
use metrics::{Measured, metrics_of};
use modes::Mode;
use reads::{CharCode, GlyphIndex, Refusal};
use tables::{EncodingData, MetricsData, MetricsUnpacked, Record, record_fits};

fn at_most(a: i16, b: i16) -> bool
    ensures { result ≡ le_z a b }
{
    a <= b
}

// Whether a glyph with these metrics has a place under the maximum bounds' ascent.
fn placeable(m: MetricsUnpacked, top: i16) -> bool
    ensures { result ≡ placeable m top }
{
    is_natural(m.width)
        & is_natural(m.ascent)
        & is_natural(m.left)
        & in_range(height_of(m))
        & at_most(m.ascent, top)
}

fn box_of(g: GlyphIndex, m: MetricsUnpacked, top: i16) -> GlyphInfo
    requires { placeable m top ≡ true }
    ensures { result ≡ box_of g m top }
{
    let width = natural_i16(m.width);
    let height = natural_i32(height_of(m));
    let pad_top = natural_i16(top) - natural_i16(m.ascent);
    let pad_left = natural_i16(m.left);
    GlyphInfo {
        glyph: g,
        width,
        height,
        pad_top,
        pad_left,
    }
}

// The box of a glyph with these metrics under the maximum bounds' ascent, or 11.
pub fn boxed(g: GlyphIndex, m: MetricsUnpacked, top: i16) -> Prepared
    ensures { result ≡ boxed g m top }
{
    if placeable(m, top) {
        return Prepared::Info(box_of(g, m, top));
    }
    Prepared::Refused(Refusal {
        number: 11,
        place: 0,
    })
}

// A glyph's box under the maximum bounds, or 10, 11. Bytes past the end read as 0.
pub fn info_of(s: &[u8], metrics: MetricsData, bounds: MetricsUnpacked, g: GlyphIndex) -> Prepared
    ensures { result ≡ info_of s.now metrics bounds g }
{
    let top = bounds.ascent;
    let measured = metrics_of(s, metrics, g);
    match measured {
        Measured::Metrics(m) => boxed(g, m, top),
        Measured::Refused(r) => Prepared::Refused(r),
    }
}

// The box of the glyph that shows a character, under the maximum bounds, and the code that supplied it, or 9, 10, 11.
// Bytes past the end read as 0.
pub fn char_info(
    s: &[u8],
    codes: EncodingData,
    mode: Mode,
    metrics: MetricsData,
    bounds: MetricsUnpacked,
    code: CharCode,
) -> CharPrepared
    ensures { result ≡ prepared s.now codes mode metrics bounds code.0 }
{
    let own = glyph_of(s, codes, code);
    let served = or_stand_in(s, codes, mode, code, own);
    match served {
        Served::Glyph(g, by) => {
            let info = info_of(s, metrics, bounds, g);
            match info {
                Prepared::Info(i) => CharPrepared::Info(i, by),
                Prepared::Refused(r) => CharPrepared::Refused(r),
            }
        }
        Served::Refused(r) => CharPrepared::Refused(r),
    }
}

// Where and how large the glyph is drawn that shows a character in this mode, and the code that supplied it, as
// `lookup::get_glyph` finds it. Refused, all with place 0: 6 for a record that fails its test with these bytes, 9 for a
// code without a glyph, in default mode only if the default code has none either, 10 for a glyph without metrics, 11
// for metrics out of range.
pub fn prep_char(bytes: &[u8], rec: Record, mode: Mode, code: CharCode) -> CharPrepared
    ensures { result ≡ prep_char bytes.now rec mode code.0 }
{
    if record_fits(bytes.len(), rec) {
        char_info(
            bytes,
            rec.codes,
            mode,
            rec.metrics,
            rec.accel.maxbounds,
            code,
        )
    } else {
        CharPrepared::Refused(Refusal {
            number: 6,
            place: 0,
        })
    }
}
