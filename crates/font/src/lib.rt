// The view of a font: its bytes and its record in one value, to ask the rest of the library by. The
// functions of the view take it apart and call the functions of the same name on bytes and record; they
// answer and refuse as those do. Beside it are functions that take a font's bytes alone.
#![tactic(auto)]

mod shown;

ghost use Rattle.std.specs.Prelude.{◌≡◌, length};
ghost use Rattle.bitmaps.specs.Place.{place_at};
ghost use Rattle.lookup.specs.Served.{get_glyph};
ghost use Rattle.names.specs.Names.{get_name, name_bytes, name_at};
ghost use Rattle.names.specs.Strings.{moved_by};
ghost use Rattle.place.specs.Bounds.{dimensions};
ghost use Rattle.place.specs.Info.{prep_char};
ghost use Rattle.glyphs.specs.Char.{draw_char, char_leaves};
ghost use Rattle.text.specs.Text.{draw_string, string_leaves};

use glyphs::CharDrawn;
use lookup::Served;
use modes::Mode;
use names::Named;
use place::{CharPrepared, Sized};
use reads::{CharCode, GlyphIndex};
pub use shown::{char_through, record_of, show_char, show_string, string_through};
use tables::Record;
use text::{TextDrawn, Wrap};

// A font's bytes, lent for as long as the view is used, with the record that was read from them.
#[derive(Clone, Copy)]
pub struct Font<'a> {
    pub bytes: &'a [u8],
    pub rec: Record,
}

// How a font's bytes are read where no record is given: as `load::load_pcf` does, as `load::load_strict`
// does, or as `vet::vet` does.
#[derive(Clone, Copy)]
pub enum Reading {
    Tolerant,
    Strict,
    Vetted,
}

// The view of these bytes with this record. Nothing is tested here: each function of the view refuses a
// record that fails its test with the bytes, with 6, as the function that it calls does.
pub fn open<'a>(bytes: &'a [u8], rec: Record) -> Font<'a>
    ensures { (result.bytes ≡ bytes.entry) × (result.rec ≡ rec) }
{
    Font { bytes, rec }
}

impl<'a> Font<'a> {
    // The glyph that shows a character code, and the code that supplied it: `lookup::get_glyph`. Refused 6, 9.
    pub fn get_glyph(self, mode: Mode, code: CharCode) -> Served
        ensures { result ≡ get_glyph self.entry.bytes.now self.entry.rec mode code.0 }
    {
        lookup::get_glyph(self.bytes, self.rec, mode, code)
    }

    // Where a glyph's name stands in the font's bytes: `names::get_name`. Refused 6, 17, 18.
    pub fn get_name(self, glyph: GlyphIndex) -> Named
        ensures { result ≡ get_name self.entry.bytes.now self.entry.rec glyph.0 }
    {
        names::get_name(self.bytes, self.rec, glyph)
    }

    // A glyph's name, where it stands in the font's own bytes, which may be kept longer than the view:
    // `names::name_bytes`. Empty where `names::get_name` refuses.
    pub fn name_bytes(self, glyph: GlyphIndex) -> &'a [u8]
        ensures result_value { result.now ≡ name_bytes self.entry.bytes.now (get_name self.entry.bytes.now self.entry.rec glyph.0) }
        ensures ref_ptr_value { result.ref_ptr ≡ moved_by self.entry.bytes.ref_ptr (name_at self.entry.bytes.now (get_name self.entry.bytes.now self.entry.rec glyph.0)) }
    {
        names::name_bytes(self.bytes, self.rec, glyph)
    }

    // The maximum bounds' height and width: `place::dimensions`. Refused 6, 11.
    pub fn dimensions(self) -> Sized
        ensures { result ≡ dimensions self.entry.bytes.now self.entry.rec }
    {
        place::dimensions(self.bytes, self.rec)
    }

    // Where and how large the glyph is drawn that shows a character, and the code that supplied it:
    // `place::prep_char`. Refused 6, 9, 10, 11.
    pub fn prep_char(self, mode: Mode, code: CharCode) -> CharPrepared
        ensures { result ≡ prep_char self.entry.bytes.now self.entry.rec mode code.0 }
    {
        place::prep_char(self.bytes, self.rec, mode, code)
    }

    // Draws the glyph that shows a character, and answers the code that supplied it: `glyphs::draw_char`. Refused 6, 15, 9, 10, 11, 13, 14, 16, and then no
    // pixel is coloured.
    pub fn draw_char(
        self,
        mode: Mode,
        code: CharCode,
        buf: &mut [u32],
        start: usize,
        stride: usize,
        scale: usize,
        colour: u32,
    ) -> CharDrawn
        ensures value { result ≡ draw_char self.entry.bytes.now self.entry.rec mode code.0 (length buf.old) (place_at start stride scale) }
        ensures buf_after { buf.new ≡ char_leaves self.entry.bytes.now self.entry.rec (place_at start stride scale) colour result buf.old }
    {
        glyphs::draw_char(
            self.bytes, self.rec, mode, code, buf, start, stride, scale, colour,
        )
    }

    // Draws a text: `text::draw_string`. Refused 6, 15, 19, 11, and then as the first character that is
    // refused, at the byte where it starts; no pixel is coloured then.
    pub fn draw_string(
        self,
        mode: Mode,
        text: &[u8],
        buf: &mut [u32],
        start: usize,
        wrap: Wrap,
        stride: usize,
        scale: usize,
        colour: u32,
    ) -> TextDrawn
        ensures value { result ≡ draw_string self.entry.bytes.now self.entry.rec mode text.now (length buf.old) (record { start = start; wrap = wrap; stride = stride; scale = scale }) }
        ensures buf_after { buf.new ≡ string_leaves self.entry.bytes.now self.entry.rec mode text.now (record { start = start; wrap = wrap; stride = stride; scale = scale }) colour result buf.old }
    {
        text::draw_string(
            self.bytes, self.rec, mode, text, buf, start, wrap, stride, scale, colour,
        )
    }
}
