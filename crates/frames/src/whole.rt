// What a frame is made of: a placed glyph of which nothing is missing.
ghost use Rattle.std.specs.Prelude.{◌≡◌};
ghost use Rattle.reads.specs.Said.{refusal};
ghost use Rattle.frames.specs.Whole.{whole_box, whole_glyph};

use bitmaps::{no_bitmap, rows_short, unreadable};
use lookup::{Found, glyph_of};
use names::{Named, name_of};
use place::{GlyphInfo, Prepared, info_of};
use reads::{CharCode, Refusal};
use tables::Record;

// A refusal of what is missing.
fn refused(number: u8) -> Prepared
    ensures { result ≡ Prepared.Refused (refusal number 0) }
{
    Prepared::Refused(Refusal { number, place: 0 })
}

// Of a placed glyph: 12, 13, 14 over all rows, 17, 18, or its box.
#[tactic(auto, unfolding(crate::specs::Whole::whole_box))]
fn whole_box(s: &[u8], rec: Record, i: GlyphInfo) -> Prepared
    ensures { result ≡ whole_box s.now rec i }
{
    let g = i.glyph;
    if no_bitmap(rec.bitmaps, g) {
        return refused(12);
    }
    if unreadable(rec.bitmaps) {
        return refused(13);
    }
    if rows_short(s, rec.bitmaps, g, i.width, i.height) {
        return refused(14);
    }
    let named = name_of(s, rec.names, g);
    match named {
        Named::Name(_) => Prepared::Info(i),
        Named::Refused(r) => Prepared::Refused(r),
    }
}

// Of a code's own glyph: 9, 10, 11, then those.
#[tactic(auto, unfolding(crate::specs::Whole::whole_glyph))]
pub(crate) fn whole_glyph(s: &[u8], rec: Record, code: CharCode) -> Prepared
    ensures { result ≡ whole_glyph s.now rec code.0 }
{
    let found = glyph_of(s, rec.codes, code);
    match found {
        Found::Glyph(g) => {
            let placed = info_of(s, rec.metrics, rec.accel.maxbounds, g);
            match placed {
                Prepared::Info(i) => whole_box(s, rec, i),
                Prepared::Refused(r) => Prepared::Refused(r),
            }
        }
        Found::Refused(r) => Prepared::Refused(r),
    }
}
