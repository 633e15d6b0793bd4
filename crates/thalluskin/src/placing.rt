// The size of a font's letters, and a character placed.
ghost use Rattle.std.specs.Prelude.{◌≡◌};
ghost use Rattle.place.specs.Bounds as bounds;
ghost use Rattle.place.specs.Info.{prepared_in};
ghost use Rattle.tables.specs.Fits.{guarded};
ghost use Rattle.lookup.specs.Served.{itself};
ghost use Rattle.modes.specs.Modes.{is_known, mode_of};
ghost use Rattle.place.specs.declared.CharPrepared.{CharPrepared};
ghost use Rattle.thalluskin.specs.Placing.{no_info, extent_answer, info_answer};

use crate::{ExtentAnswer, InfoAnswer};
use lookup::Supplier;
use modes::{is_known, mode_of};
use place::{CharPrepared, Extent, GlyphInfo, Sized, char_info, dimensions};
use reads::{CharCode, GlyphIndex};
use tables::{Permit, Record, guard, record_fits};

// The bounds' height and width, as `place::dimensions` answers them. Refused, with place 0: 6, 11.
pub fn thalluskin_dimensions(bytes: &[u8], rec: Record) -> ExtentAnswer
    ensures { result ≡ extent_answer (bounds.dimensions bytes.now rec) }
{
    let answer = dimensions(bytes, rec);
    match answer {
        Sized::Dimensions(extent) => ExtentAnswer {
            refusal: 0,
            place: 0,
            extent,
        },
        Sized::Refused(r) => ExtentAnswer {
            refusal: r.number as u32,
            place: r.place,
            extent: Extent {
                height: 0,
                width: 0,
            },
        },
    }
}

// A glyph that is none.
pub(crate) fn no_info() -> GlyphInfo
    ensures { result ≡ no_info }
{
    GlyphInfo {
        glyph: GlyphIndex(0),
        width: 0,
        height: 0,
        pad_top: 0,
        pad_left: 0,
    }
}

// Nor is one supplied.
pub(crate) fn no_supplier() -> Supplier
    ensures { result ≡ itself 0 }
{
    Supplier {
        code: CharCode(0),
        is_default: false,
    }
}

// What placing a character answered.
fn info_answer(prepared: CharPrepared) -> InfoAnswer
    ensures { result ≡ info_answer prepared }
{
    match prepared {
        CharPrepared::Info(info, by) => InfoAnswer {
            refusal: 0,
            place: 0,
            info,
            by,
        },
        CharPrepared::Refused(r) => InfoAnswer {
            refusal: r.number as u32,
            place: r.place,
            info: no_info(),
            by: no_supplier(),
        },
    }
}

// A character's glyph, placed, as `place::prep_char` answers it. Refused, with place 0: 6, 15 for an unknown mode, 9,
// 10, 11.
pub fn thalluskin_prep_char(bytes: &[u8], rec: Record, code: CharCode, mode: u32) -> InfoAnswer
    ensures { result ≡ info_answer (guarded CharPrepared.Refused bytes.now rec (is_known mode) (prepared_in bytes.now rec (mode_of mode) code.0)) }
{
    let permit = guard(record_fits(bytes.len(), rec), is_known(mode));
    match permit {
        Permit::Given => info_answer(char_info(
            bytes,
            rec.codes,
            mode_of(mode),
            rec.metrics,
            rec.accel.maxbounds,
            code,
        )),
        Permit::Refused(r) => info_answer(CharPrepared::Refused(r)),
    }
}
