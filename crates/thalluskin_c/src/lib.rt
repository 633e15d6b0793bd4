// What libthalluskin.a exports: each function of the library for C, `crates/thalluskin`, under its own name and with its
// clauses. `include/thalluskin.h` declares them.
#![tactic(auto)]

ghost use Rattle.std.specs.Prelude.{◌≡◌, cond, length};
ghost use Rattle.font.specs.Shown.{record_of};
ghost use Rattle.font.specs.declared.Reading.{Reading};
ghost use Rattle.lookup.specs.Served.{served};
ghost use Rattle.metrics.specs.Measure.{get_metrics, get_accelerators};
ghost use Rattle.names.specs.Names.{get_name};
ghost use Rattle.props.specs.Props.{prop_at};
ghost use Rattle.reads.specs.Said.{refusal};
ghost use Rattle.tables.specs.Fits.{guarded};
ghost use Rattle.lookup.specs.declared.Served.{Served};
ghost use Rattle.load.specs.Load.{loaded, loaded_strictly};
ghost use Rattle.load.specs.declared.Loaded.{Loaded};
ghost use Rattle.modes.specs.Modes.{is_known, mode_of};
ghost use Rattle.thalluskin.specs.Reading.{font_answer, property_answer, glyph_answer, name_answer, metrics_answer, accel_answer};
ghost use Rattle.place.specs.Info.{prepared_in};
ghost use Rattle.place.specs.declared.CharPrepared.{CharPrepared};
ghost use Rattle.thalluskin.specs.Placing.{extent_answer, info_answer};
ghost use Rattle.bitmaps.specs.Draw.{draw_bitmap, shown_leaves};
ghost use Rattle.glyphs.specs.Glyph.{draw_glyph, glyph_leaves};
ghost use Rattle.glyphs.specs.Char.{draw_char, char_leaves};
ghost use Rattle.glyphs.specs.Unpack.{unpack_glyph, unpack_leaves};
ghost use Rattle.thalluskin.specs.Pages.{mode_in, stride_of, place_of};
ghost use Rattle.thalluskin.specs.Drawing.{rows_answer, char_answer, unpack_answer};
ghost use Rattle.why.specs.Why.{why_of};
ghost use Rattle.thalluskin.specs.Reasons.{why_answer};
ghost use Rattle.text.specs.Text.{draw_string, string_leaves};
ghost use Rattle.utf8.specs.Step.{step_at};
ghost use Rattle.thalluskin.specs.Texts.{layout_of, text_answer, step_answer};
ghost use Rattle.thalluskin.specs.Version.{version};
ghost use Rattle.place.specs.Bounds as bounds;

use place::GlyphInfo;
use reads::{CharCode, GlyphIndex};
use tables::Record;
use thalluskin::{
    AccelAnswer, Bitmap, CharAnswer, ExtentAnswer, FontAnswer, GlyphAnswer, InfoAnswer,
    MetricsAnswer, NameAnswer, PageNumbers, PropertyAnswer, RowsAnswer, StepAnswer, TextAnswer,
    UnpackAnswer, WhyAnswer,
};

// The record of a font file, as `load::load_pcf` answers it. Refused with the first of: 1, 2, 3, 4; entry by entry,
// with the entry's number from 0 as the place, 5, 6 (in a code table 6 for its header, 7, 6 for its entries); 8.
#[unsafe(no_mangle)]
pub extern "C" fn thalluskin_load(bytes: &[u8]) -> FontAnswer
    ensures { result ≡ font_answer (loaded bytes.now) }
{
    thalluskin::thalluskin_load(bytes)
}

// The record of a font file in which each known table begins with the format word of its directory entry, as
// `load::load_strict` answers it. Refused with the first of: 1, 2, 3, 4; entry by entry, with the entry's number from 0
// as the place, 5, 6 for the four bytes of a known table's own word, 27 where it differs, 6 (in a code table 6 for its
// header, 7, 6 for its entries); 8.
#[unsafe(no_mangle)]
pub extern "C" fn thalluskin_load_strict(bytes: &[u8]) -> FontAnswer
    ensures { result ≡ font_answer (loaded_strictly bytes.now) }
{
    thalluskin::thalluskin_load_strict(bytes)
}

// The record of a font file that passes vetting, as `vet::vet` answers it. Refused 15 for an unknown mode; as
// `thalluskin_load_strict`; then 13; 11 of the bounds; 18 with the property's number as the place; code by code, with
// the code as the place, 10, 11, 12, 14, 17, 18.
#[unsafe(no_mangle)]
pub extern "C" fn thalluskin_vet(bytes: &[u8], mode: u32) -> FontAnswer
    ensures { result ≡ font_answer (cond (is_known mode) (record_of bytes.now Reading.Vetted) (Loaded.Refused (refusal 15 0))) }
{
    thalluskin::thalluskin_vet(bytes, mode)
}

// A property by its number from 0, as `props::prop_at` answers it. Refused, with place 0: 6, 17, 18.
#[unsafe(no_mangle)]
pub extern "C" fn thalluskin_property(bytes: &[u8], rec: Record, number: u32) -> PropertyAnswer
    ensures { result ≡ property_answer (prop_at bytes.now rec number) }
{
    thalluskin::thalluskin_property(bytes, rec, number)
}

// The glyph that shows a code, as `lookup::get_glyph` answers it. Refused, with place 0: 6, 15 for an unknown mode, 9.
#[unsafe(no_mangle)]
pub extern "C" fn thalluskin_glyph(
    bytes: &[u8],
    rec: Record,
    code: CharCode,
    mode: u32,
) -> GlyphAnswer
    ensures { result ≡ glyph_answer (guarded Served.Refused bytes.now rec (is_known mode) (served bytes.now rec.codes (mode_of mode) code.0)) }
{
    thalluskin::thalluskin_glyph(bytes, rec, code, mode)
}

// Where a glyph's name stands in the bytes, as `names::get_name` answers it. Refused, with place 0: 6, 17, 18.
#[unsafe(no_mangle)]
pub extern "C" fn thalluskin_name(bytes: &[u8], rec: Record, glyph: GlyphIndex) -> NameAnswer
    ensures { result ≡ name_answer (get_name bytes.now rec glyph.0) }
{
    thalluskin::thalluskin_name(bytes, rec, glyph)
}

// A glyph's metrics, as `metrics::get_metrics` answers them. Refused, with place 0: 6, 10.
#[unsafe(no_mangle)]
pub extern "C" fn thalluskin_metrics(bytes: &[u8], rec: Record, glyph: GlyphIndex) -> MetricsAnswer
    ensures { result ≡ metrics_answer (get_metrics bytes.now rec glyph.0) }
{
    thalluskin::thalluskin_metrics(bytes, rec, glyph)
}

// The accelerators, as `metrics::get_accelerators` answers them. Refused, with place 0: 6.
#[unsafe(no_mangle)]
pub extern "C" fn thalluskin_accel(bytes: &[u8], rec: Record) -> AccelAnswer
    ensures { result ≡ accel_answer (get_accelerators bytes.now rec) }
{
    thalluskin::thalluskin_accel(bytes, rec)
}

// The bounds' height and width, as `place::dimensions` answers them. Refused, with place 0: 6, 11.
#[unsafe(no_mangle)]
pub extern "C" fn thalluskin_dimensions(bytes: &[u8], rec: Record) -> ExtentAnswer
    ensures { result ≡ extent_answer (bounds.dimensions bytes.now rec) }
{
    thalluskin::thalluskin_dimensions(bytes, rec)
}

// A character's glyph, placed, as `place::prep_char` answers it. Refused, with place 0: 6, 15 for an unknown mode, 9,
// 10, 11.
#[unsafe(no_mangle)]
pub extern "C" fn thalluskin_prep_char(
    bytes: &[u8],
    rec: Record,
    code: CharCode,
    mode: u32,
) -> InfoAnswer
    ensures { result ≡ info_answer (guarded CharPrepared.Refused bytes.now rec (is_known mode) (prepared_in bytes.now rec (mode_of mode) code.0)) }
{
    thalluskin::thalluskin_prep_char(bytes, rec, code, mode)
}

// Draws a glyph's bitmap at `start`, as `paint::draw_bitmap` does. Refused, with place 0 and no pixel coloured: 6, 15,
// an unknown mode too, 12, 13, 14, 16.
#[unsafe(no_mangle)]
pub extern "C" fn thalluskin_draw_bitmap(
    bytes: &[u8],
    rec: Record,
    bitmap: Bitmap,
    buf: &mut [u32],
    page: PageNumbers,
) -> RowsAnswer
    ensures value { result ≡ rows_answer (draw_bitmap bytes.now rec bitmap.glyph.0 bitmap.width bitmap.height (length buf.old) (place_of page)) }
    ensures buf_after { buf.new ≡ shown_leaves bytes.now rec.bitmaps bitmap.glyph.0 bitmap.width (place_of page) page.colour (draw_bitmap bytes.now rec bitmap.glyph.0 bitmap.width bitmap.height (length buf.old) (place_of page)) buf.old }
{
    thalluskin::thalluskin_draw_bitmap(bytes, rec, bitmap, &mut *buf, page)
}

// Draws a placed glyph, as `glyphs::draw_glyph` does. Refused, with place 0 and no pixel coloured: 6, 15, an unknown
// mode too, 13, 14, 16.
#[unsafe(no_mangle)]
pub extern "C" fn thalluskin_draw_glyph(
    bytes: &[u8],
    rec: Record,
    info: GlyphInfo,
    buf: &mut [u32],
    page: PageNumbers,
) -> RowsAnswer
    ensures value { result ≡ rows_answer (draw_glyph bytes.now rec (mode_in page) info (length buf.old) (place_of page)) }
    ensures buf_after { buf.new ≡ glyph_leaves bytes.now rec info (place_of page) page.colour (draw_glyph bytes.now rec (mode_in page) info (length buf.old) (place_of page)) buf.old }
{
    thalluskin::thalluskin_draw_glyph(bytes, rec, info, &mut *buf, page)
}

// Draws a character, as `glyphs::draw_char` does. Refused, with place 0 and no pixel coloured: 6, 15, an unknown mode
// too, 9, 10, 11, 13, 14, 16.
#[unsafe(no_mangle)]
pub extern "C" fn thalluskin_draw_char(
    bytes: &[u8],
    rec: Record,
    code: CharCode,
    buf: &mut [u32],
    page: PageNumbers,
) -> CharAnswer
    ensures value { result ≡ char_answer (draw_char bytes.now rec (mode_in page) code.0 (length buf.old) (place_of page)) }
    ensures buf_after { buf.new ≡ char_leaves bytes.now rec (place_of page) page.colour (draw_char bytes.now rec (mode_in page) code.0 (length buf.old) (place_of page)) buf.old }
{
    thalluskin::thalluskin_draw_char(bytes, rec, code, &mut *buf, page)
}

// Stores 1 for each set bit of a placed glyph, as `glyphs::unpack_glyph` does. Refused, with place 0 and no byte
// changed: 6, 15, an unknown mode too, 13, 14, 16.
#[unsafe(no_mangle)]
pub extern "C" fn thalluskin_unpack_glyph(
    bytes: &[u8],
    rec: Record,
    info: GlyphInfo,
    buf: &mut [u8],
    page: PageNumbers,
) -> UnpackAnswer
    ensures value { result ≡ unpack_answer (unpack_glyph bytes.now rec (mode_in page) info (length buf.old) page.start (stride_of page)) }
    ensures buf_after { buf.new ≡ unpack_leaves bytes.now rec info page.start (stride_of page) (unpack_glyph bytes.now rec (mode_in page) info (length buf.old) page.start (stride_of page)) buf.old }
{
    thalluskin::thalluskin_unpack_glyph(bytes, rec, info, &mut *buf, page)
}

// Why `thalluskin_draw_char` shows a character so in a buffer of `len` pixels, as `why::why` answers it. Refused, with
// place 0: 6, 15, an unknown mode too.
#[unsafe(no_mangle)]
pub extern "C" fn thalluskin_why(
    bytes: &[u8],
    rec: Record,
    code: CharCode,
    len: usize,
    page: PageNumbers,
) -> WhyAnswer
    ensures { result ≡ why_answer (why_of bytes.now rec (mode_in page) code.0 len (place_of page)) }
{
    thalluskin::thalluskin_why(bytes, rec, code, len, page)
}

// Draws a text, as `text::draw_string` does; `wrap` with every bit set is none. Refused, with no pixel coloured: 6, 15,
// an unknown mode too, 19, 11 of the bounds; then the first character with one decides, and the byte where it starts is
// the place: 10, 11, 13, 14, 16.
#[unsafe(no_mangle)]
pub extern "C" fn thalluskin_draw_string(
    bytes: &[u8],
    rec: Record,
    text: &[u8],
    buf: &mut [u32],
    page: PageNumbers,
) -> TextAnswer
    ensures value { result ≡ text_answer (draw_string bytes.now rec (mode_in page) text.now (length buf.old) (layout_of page)) }
    ensures buf_after { buf.new ≡ string_leaves bytes.now rec (mode_in page) text.now (layout_of page) page.colour (draw_string bytes.now rec (mode_in page) text.now (length buf.old) (layout_of page)) buf.old }
{
    thalluskin::thalluskin_draw_string(bytes, rec, text, &mut *buf, page)
}

// What `thalluskin_draw_string` answers with a buffer of `len` pixels: a dry run.
#[unsafe(no_mangle)]
pub extern "C" fn thalluskin_text_check(
    bytes: &[u8],
    rec: Record,
    text: &[u8],
    len: usize,
    page: PageNumbers,
) -> TextAnswer
    ensures { result ≡ text_answer (draw_string bytes.now rec (mode_in page) text.now len (layout_of page)) }
{
    thalluskin::thalluskin_text_check(bytes, rec, text, len, page)
}

// The character at byte `i` and the place after it, or the end, as `utf8::step_at` answers it. Refused: 19, with `i` as
// the place.
#[unsafe(no_mangle)]
pub extern "C" fn thalluskin_utf8_step(text: &[u8], i: usize) -> StepAnswer
    ensures { result ≡ step_answer (step_at text.now i) }
{
    thalluskin::thalluskin_utf8_step(text, i)
}

// The version of the archive: 10,000 times its first number, 100 times its second, and its third.
#[unsafe(no_mangle)]
pub extern "C" fn thalluskin_version() -> u32
    ensures { result ≡ version }
{
    thalluskin::thalluskin_version()
}
