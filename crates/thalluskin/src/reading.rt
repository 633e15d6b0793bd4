// Loading, vetting, and what a font's tables say.
ghost use Rattle.std.specs.Prelude.{◌≡◌, cond};
ghost use Rattle.font.specs.Shown.{record_of};
ghost use Rattle.font.specs.declared.Reading.{Reading};
ghost use Rattle.lookup.specs.Served.{served};
ghost use Rattle.metrics.specs.Measure.{get_metrics, get_accelerators};
ghost use Rattle.names.specs.Names.{get_name};
ghost use Rattle.props.specs.Props.{prop_at};
ghost use Rattle.reads.specs.Said.{refusal};
ghost use Rattle.tables.specs.Fits.{guarded};
ghost use Rattle.lookup.specs.declared.Served.{Served};
ghost use Rattle.load.specs.Load.{loaded, loaded_strictly};
ghost use Rattle.load.specs.declared.Loaded.{Loaded};
ghost use Rattle.modes.specs.Modes.{is_known, mode_of};
ghost use Rattle.thalluskin.specs.Reading.{font_answer, no_span, prop_answer, property_answer, glyph_answer, name_answer, metrics_answer, accel_answer};

use crate::placing::no_supplier;
use crate::{AccelAnswer, FontAnswer, GlyphAnswer, MetricsAnswer, NameAnswer, PropertyAnswer};
use font::{Reading, record_of};
use load::{Loaded, blank, load_in, no_metrics};
use lookup::{Served, serve};
use metrics::{Accelerated, Measured, get_accelerators, get_metrics};
use modes::{is_known, mode_of};
use names::{Named, Span, get_name};
use props::{PropFound, PropValue, Property, prop_at};
use reads::{CharCode, GlyphIndex, Refusal};
use tables::{Permit, Record, guard, record_fits};

// What loading or vetting answered.
fn font_answer(loaded: Loaded) -> FontAnswer
    ensures { result ≡ font_answer loaded }
{
    match loaded {
        Loaded::Font(rec) => FontAnswer {
            refusal: 0,
            place: 0,
            rec,
        },
        Loaded::Refused(r) => FontAnswer {
            refusal: r.number as u32,
            place: r.place,
            rec: blank(),
        },
    }
}

// The record of a font file, as `load::load_pcf` answers it. Refused with the first of: 1, 2, 3, 4; entry by entry,
// with the entry's number from 0 as the place, 5, 6 (in a code table 6 for its header, 7, 6 for its entries); 8.
pub fn thalluskin_load(bytes: &[u8]) -> FontAnswer
    ensures { result ≡ font_answer (loaded bytes.now) }
{
    font_answer(load_in(bytes, false))
}

// The record of a font file in which each known table begins with the format word of its directory entry, as
// `load::load_strict` answers it. Refused with the first of: 1, 2, 3, 4; entry by entry, with the entry's number from 0
// as the place, 5, 6 for the four bytes of a known table's own word, 27 where it differs, 6 (in a code table 6 for its
// header, 7, 6 for its entries); 8.
pub fn thalluskin_load_strict(bytes: &[u8]) -> FontAnswer
    ensures { result ≡ font_answer (loaded_strictly bytes.now) }
{
    font_answer(load_in(bytes, true))
}

// The record of a font file that passes vetting, as `vet::vet` answers it. Refused 15 for an unknown mode; as
// `thalluskin_load_strict`; then 13; 11 of the bounds; 18 with the property's number as the place; code by code, with
// the code as the place, 10, 11, 12, 14, 17, 18.
pub fn thalluskin_vet(bytes: &[u8], mode: u32) -> FontAnswer
    ensures { result ≡ font_answer (cond (is_known mode) (record_of bytes.now Reading.Vetted) (Loaded.Refused (refusal 15 0))) }
{
    if is_known(mode) {
        return font_answer(record_of(bytes, Reading::Vetted));
    }
    font_answer(Loaded::Refused(Refusal {
        number: 15,
        place: 0,
    }))
}

// No part of the bytes.
fn no_span() -> Span
    ensures { result ≡ no_span }
{
    Span { start: 0, len: 0 }
}

// A property that was found.
fn prop_answer(p: Property) -> PropertyAnswer
    ensures { result ≡ prop_answer p }
{
    let name = p.name;
    let value = p.value;
    match value {
        PropValue::Number(number) => PropertyAnswer {
            refusal: 0,
            place: 0,
            name,
            is_string: false,
            number,
            string: no_span(),
        },
        PropValue::String(string) => PropertyAnswer {
            refusal: 0,
            place: 0,
            name,
            is_string: true,
            number: 0,
            string,
        },
    }
}

// A property by its number from 0, as `props::prop_at` answers it. Refused, with place 0: 6, 17, 18.
pub fn thalluskin_property(bytes: &[u8], rec: Record, number: u32) -> PropertyAnswer
    ensures { result ≡ property_answer (prop_at bytes.now rec number) }
{
    let answer = prop_at(bytes, rec, number);
    match answer {
        PropFound::Property(p) => prop_answer(p),
        PropFound::Refused(r) => PropertyAnswer {
            refusal: r.number as u32,
            place: r.place,
            name: no_span(),
            is_string: false,
            number: 0,
            string: no_span(),
        },
    }
}

// What looking a glyph up answered.
fn glyph_answer(found: Served) -> GlyphAnswer
    ensures { result ≡ glyph_answer found }
{
    match found {
        Served::Glyph(glyph, by) => GlyphAnswer {
            refusal: 0,
            place: 0,
            glyph,
            by,
        },
        Served::Refused(r) => GlyphAnswer {
            refusal: r.number as u32,
            place: r.place,
            glyph: GlyphIndex(0),
            by: no_supplier(),
        },
    }
}

// The glyph that shows a code, as `lookup::get_glyph` answers it. Refused, with place 0: 6, 15 for an unknown mode, 9.
pub fn thalluskin_glyph(bytes: &[u8], rec: Record, code: CharCode, mode: u32) -> GlyphAnswer
    ensures { result ≡ glyph_answer (guarded Served.Refused bytes.now rec (is_known mode) (served bytes.now rec.codes (mode_of mode) code.0)) }
{
    let permit = guard(record_fits(bytes.len(), rec), is_known(mode));
    match permit {
        Permit::Given => glyph_answer(serve(bytes, rec.codes, mode_of(mode), code)),
        Permit::Refused(r) => glyph_answer(Served::Refused(r)),
    }
}

// Where a glyph's name stands in the bytes, as `names::get_name` answers it. Refused, with place 0: 6, 17, 18.
pub fn thalluskin_name(bytes: &[u8], rec: Record, glyph: GlyphIndex) -> NameAnswer
    ensures { result ≡ name_answer (get_name bytes.now rec glyph.0) }
{
    let answer = get_name(bytes, rec, glyph);
    match answer {
        Named::Name(name) => NameAnswer {
            refusal: 0,
            place: 0,
            name,
        },
        Named::Refused(r) => NameAnswer {
            refusal: r.number as u32,
            place: r.place,
            name: no_span(),
        },
    }
}

// A glyph's metrics, as `metrics::get_metrics` answers them. Refused, with place 0: 6, 10.
pub fn thalluskin_metrics(bytes: &[u8], rec: Record, glyph: GlyphIndex) -> MetricsAnswer
    ensures { result ≡ metrics_answer (get_metrics bytes.now rec glyph.0) }
{
    let answer = get_metrics(bytes, rec, glyph);
    match answer {
        Measured::Metrics(metrics) => MetricsAnswer {
            refusal: 0,
            place: 0,
            metrics,
        },
        Measured::Refused(r) => MetricsAnswer {
            refusal: r.number as u32,
            place: r.place,
            metrics: no_metrics(),
        },
    }
}

// The accelerators, as `metrics::get_accelerators` answers them. Refused, with place 0: 6.
pub fn thalluskin_accel(bytes: &[u8], rec: Record) -> AccelAnswer
    ensures { result ≡ accel_answer (get_accelerators bytes.now rec) }
{
    let answer = get_accelerators(bytes, rec);
    match answer {
        Accelerated::Accelerators(accel) => AccelAnswer {
            refusal: 0,
            place: 0,
            accel,
        },
        Accelerated::Refused(r) => {
            let none = blank();
            let accel = none.accel;
            AccelAnswer {
                refusal: r.number as u32,
                place: r.place,
                accel,
            }
        }
    }
}
