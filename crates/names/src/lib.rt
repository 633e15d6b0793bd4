// Strings of a font, as parts of its own bytes, and the names of its glyphs.
#![tactic(auto)]

mod strings;

ghost use Rattle.std.specs.Prelude.{◌≡◌};
ghost use Rattle.names.specs.Names.{name_of, get_name, name_bytes, name_at};
ghost use Rattle.names.specs.Strings.{moved_by};

use reads::{GlyphIndex, Refusal, u32_at};
pub use strings::{part_of, string_at};
use tables::{GlyphNameData, Record, record_fits};

// A part of the font's bytes: `len` of them from `start` on.
#[repr(C)]
#[derive(Clone, Copy)]
pub struct Span {
    pub start: usize,
    pub len: usize,
}

// Where a name, or another string of the font, stands in its bytes.
#[derive(Clone, Copy)]
pub enum Named {
    Name(Span),
    Refused(Refusal),
}

// How many bytes stand before the first zero byte.
#[derive(Clone, Copy)]
pub enum Zero {
    After(usize),
    Nothing,
}

// The name of a glyph in this table, or 17, 18; 6 where the table's strings lie outside the bytes.
pub fn name_of(s: &[u8], n: GlyphNameData, g: GlyphIndex) -> Named
    ensures { result ≡ name_of s.now n g.0 }
{
    let i = g.0 as u32;
    if n.count <= i {
        return Named::Refused(Refusal {
            number: 17,
            place: 0,
        });
    }
    let from = u32_at(s, n.offsets, 4 * (i as usize), n.big) as usize;
    string_at(s, n.strings, n.size, from)
}

// Where a glyph's name stands in the font's bytes, its zero byte not counted. Refused, all with place
// 0: 6 for a record that fails its test with these bytes (`tables::record_fits`), 17 for a glyph at
// or above the names count, 18 for a name that starts beyond the string data or has no zero byte
// there.
pub fn get_name(bytes: &[u8], rec: Record, glyph: GlyphIndex) -> Named
    ensures { result ≡ get_name bytes.now rec glyph.0 }
{
    if record_fits(bytes.len(), rec) {
        name_of(bytes, rec.names, glyph)
    } else {
        Named::Refused(Refusal {
            number: 6,
            place: 0,
        })
    }
}

// The name itself, where it stands in the font's own bytes; empty, and at their beginning, where `get_name`
// refuses. An empty name has no bytes either: to tell them apart, ask `get_name`, and `part_of` for the span
// that it answers.
pub fn name_bytes(bytes: &[u8], rec: Record, glyph: GlyphIndex) -> &[u8]
    ensures result_value { result.now ≡ name_bytes bytes.now (get_name bytes.now rec glyph.0) }
    ensures ref_ptr_value { result.ref_ptr ≡ moved_by bytes.entry.ref_ptr (name_at bytes.now (get_name bytes.now rec glyph.0)) }
{
    let named = get_name(bytes, rec, glyph);
    match named {
        Named::Name(span) => part_of(bytes, span),
        Named::Refused(_) => part_of(bytes, Span { start: 0, len: 0 }),
    }
}
