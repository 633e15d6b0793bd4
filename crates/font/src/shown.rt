// Drawing with a font's bytes alone: the record is read from them, and the drawing goes through the view.
// No parameter is a view, so whoever calls these has nothing to prove of one.
ghost use Rattle.std.specs.Prelude.{◌≡◌, length};
ghost use Rattle.bitmaps.specs.Place.{place_at};
ghost use Rattle.glyphs.specs.Char.{draw_char, char_leaves};
ghost use Rattle.text.specs.Text.{draw_string, string_leaves};
ghost use Rattle.font.specs.Shown.{record_of, show_char, show_char_leaves, show_string, show_string_leaves};

use crate::{Reading, open};
use glyphs::CharDrawn;
use load::{Loaded, load_in};
use modes::Mode;
use reads::CharCode;
use tables::Record;
use text::{TextDrawn, Wrap};
use vet::{Vetted, vet};

// The record of a font's bytes, read as `reading` says: refused as `load::load_pcf`, `load::load_strict` or
// `vet::vet` refuses them.
#[tactic(auto, unfolding(crate::specs::Shown::record_of))]
pub fn record_of(bytes: &[u8], reading: Reading) -> Loaded
    ensures { result ≡ record_of bytes.now reading }
{
    match reading {
        Reading::Tolerant => load_in(bytes, false),
        Reading::Strict => load_in(bytes, true),
        Reading::Vetted => {
            let vetted = vet(bytes);
            match vetted {
                Vetted::Passed(rec) => Loaded::Font(rec),
                Vetted::Refused(r) => Loaded::Refused(r),
            }
        }
    }
}

// `Font::draw_char` of the view of these bytes with this record.
pub fn char_through(
    bytes: &[u8],
    rec: Record,
    mode: Mode,
    code: CharCode,
    buf: &mut [u32],
    start: usize,
    stride: usize,
    scale: usize,
    colour: u32,
) -> CharDrawn
    ensures value { result ≡ draw_char bytes.now rec mode code.0 (length buf.old) (place_at start stride scale) }
    ensures buf_after { buf.new ≡ char_leaves bytes.now rec (place_at start stride scale) colour result buf.old }
{
    open(bytes, rec).draw_char(mode, code, buf, start, stride, scale, colour)
}

// `Font::draw_string` of the view of these bytes with this record.
pub fn string_through(
    bytes: &[u8],
    rec: Record,
    mode: Mode,
    text: &[u8],
    buf: &mut [u32],
    start: usize,
    wrap: Wrap,
    stride: usize,
    scale: usize,
    colour: u32,
) -> TextDrawn
    ensures value { result ≡ draw_string bytes.now rec mode text.now (length buf.old) (record { start = start; wrap = wrap; stride = stride; scale = scale }) }
    ensures buf_after { buf.new ≡ string_leaves bytes.now rec mode text.now (record { start = start; wrap = wrap; stride = stride; scale = scale }) colour result buf.old }
{
    open(bytes, rec).draw_string(mode, text, buf, start, wrap, stride, scale, colour)
}

// Draws a character with the font that these bytes are. Refused as `record_of` refuses the bytes, with the
// same place, then as `Font::draw_char`; no pixel is coloured then. Each call reads the record anew: for
// more than one, keep the record and take `char_through` or the view.
#[tactic(auto, unfolding(crate::specs::Shown::show_char, crate::specs::Shown::show_char_leaves))]
pub fn show_char(
    bytes: &[u8],
    reading: Reading,
    mode: Mode,
    code: CharCode,
    buf: &mut [u32],
    start: usize,
    stride: usize,
    scale: usize,
    colour: u32,
) -> CharDrawn
    ensures value { result ≡ show_char bytes.now reading mode code.0 (length buf.old) (place_at start stride scale) }
    ensures buf_after { buf.new ≡ show_char_leaves bytes.now reading (place_at start stride scale) colour result buf.old }
{
    let loaded = record_of(bytes, reading);
    match loaded {
        Loaded::Font(rec) => {
            char_through(
                bytes, rec, mode, code, &mut *buf, start, stride, scale, colour,
            )
        }
        Loaded::Refused(r) => CharDrawn::Refused(r),
    }
}

// Draws a text with the font that these bytes are. Refused as `record_of` refuses the bytes, with the same
// place, then as `Font::draw_string`; no pixel is coloured then. Each call reads the record anew, as
// `show_char` does.
#[tactic(auto, unfolding(crate::specs::Shown::show_string, crate::specs::Shown::show_string_leaves))]
pub fn show_string(
    bytes: &[u8],
    reading: Reading,
    mode: Mode,
    text: &[u8],
    buf: &mut [u32],
    start: usize,
    wrap: Wrap,
    stride: usize,
    scale: usize,
    colour: u32,
) -> TextDrawn
    ensures value { result ≡ show_string bytes.now reading mode text.now (length buf.old) (record { start = start; wrap = wrap; stride = stride; scale = scale }) }
    ensures buf_after { buf.new ≡ show_string_leaves bytes.now reading mode text.now (record { start = start; wrap = wrap; stride = stride; scale = scale }) colour result buf.old }
{
    let loaded = record_of(bytes, reading);
    match loaded {
        Loaded::Font(rec) => {
            string_through(
                bytes, rec, mode, text, &mut *buf, start, wrap, stride, scale, colour,
            )
        }
        Loaded::Refused(r) => TextDrawn::Refused(r),
    }
}
