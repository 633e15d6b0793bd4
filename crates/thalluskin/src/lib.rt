// The library for C, and for what can call C: each function here is one of the library's, in a form that
// other languages have. Bytes, texts and buffers are a pointer and a length; the record, a drawing's numbers
// and the answers are structs by value. `include/thalluskin.h` says all this to C.
//
// Every answer but the version begins with `refusal`, the refusal's number or 0 for none, and `place`; then come
// the values, which on a refusal are 0. A mode is a number, `modes::mode_of`, and one that stands for none is refused
// (15).
#![tactic(auto)]

mod drawing;
mod pages;
mod placing;
mod reading;
mod reasons;
mod texts;
mod version;

use bitmaps::Rows;
pub use drawing::{
    thalluskin_draw_bitmap, thalluskin_draw_char, thalluskin_draw_glyph, thalluskin_unpack_glyph,
};
use lookup::Supplier;
use names::Span;
use place::{Extent, GlyphInfo};
pub use placing::{thalluskin_dimensions, thalluskin_prep_char};
pub use reading::{
    thalluskin_accel, thalluskin_glyph, thalluskin_load, thalluskin_load_strict,
    thalluskin_metrics, thalluskin_name, thalluskin_property, thalluskin_vet,
};
use reads::{CharCode, GlyphIndex};
pub use reasons::thalluskin_why;
use tables::{AcceleratorUnpacked, MetricsUnpacked, Record};
use text::TextRows;
pub use texts::{thalluskin_draw_string, thalluskin_text_check, thalluskin_utf8_step};
pub use version::thalluskin_version;
use why::ReasonNumber;

// The numbers of a drawing. `wrap` is for texts alone, and with every bit set it is none; unpacking looks at `start`,
// `stride` and `mode`.
#[repr(C)]
#[derive(Clone, Copy)]
pub struct PageNumbers {
    pub start: usize,
    pub stride: usize,
    pub scale: usize,
    pub wrap: u64,
    pub colour: u32,
    pub mode: u32,
}

// A glyph's bitmap, and how much of it: `width` by `height`.
#[repr(C)]
#[derive(Clone, Copy)]
pub struct Bitmap {
    pub glyph: GlyphIndex,
    pub width: usize,
    pub height: usize,
}

// The font's record, to be used with the same bytes.
#[repr(C)]
#[derive(Clone, Copy)]
pub struct FontAnswer {
    pub refusal: u32,
    pub place: usize,
    pub rec: Record,
}

// A property: where its name stands in the font's bytes, and its value. Where `is_string` that is the bytes
// at `string`, and `number` is 0; else it is `number`, and `string` is 0 and 0.
#[repr(C)]
#[derive(Clone, Copy)]
pub struct PropertyAnswer {
    pub refusal: u32,
    pub place: usize,
    pub name: Span,
    pub is_string: bool,
    pub number: u32,
    pub string: Span,
}

// The glyph that shows a character, and the code that supplied it.
#[repr(C)]
#[derive(Clone, Copy)]
pub struct GlyphAnswer {
    pub refusal: u32,
    pub place: usize,
    pub glyph: GlyphIndex,
    pub by: Supplier,
}

// Where a name stands in the font's bytes.
#[repr(C)]
#[derive(Clone, Copy)]
pub struct NameAnswer {
    pub refusal: u32,
    pub place: usize,
    pub name: Span,
}

#[repr(C)]
#[derive(Clone, Copy)]
pub struct MetricsAnswer {
    pub refusal: u32,
    pub place: usize,
    pub metrics: MetricsUnpacked,
}

#[repr(C)]
#[derive(Clone, Copy)]
pub struct AccelAnswer {
    pub refusal: u32,
    pub place: usize,
    pub accel: AcceleratorUnpacked,
}

#[repr(C)]
#[derive(Clone, Copy)]
pub struct ExtentAnswer {
    pub refusal: u32,
    pub place: usize,
    pub extent: Extent,
}

// A character's placed glyph, and the code that supplied it.
#[repr(C)]
#[derive(Clone, Copy)]
pub struct InfoAnswer {
    pub refusal: u32,
    pub place: usize,
    pub info: GlyphInfo,
    pub by: Supplier,
}

// The rows drawn and dropped of a glyph.
#[repr(C)]
#[derive(Clone, Copy)]
pub struct RowsAnswer {
    pub refusal: u32,
    pub place: usize,
    pub rows: Rows,
}

// A character's placed glyph, its rows drawn and dropped, and the code that supplied it.
#[repr(C)]
#[derive(Clone, Copy)]
pub struct CharAnswer {
    pub refusal: u32,
    pub place: usize,
    pub info: GlyphInfo,
    pub rows: Rows,
    pub by: Supplier,
}

// Why a character is not on the glass, or is: the reason's number, which is never 0, how many rows were cut, and the code
// that the reason speaks of.
#[repr(C)]
#[derive(Clone, Copy)]
pub struct WhyAnswer {
    pub refusal: u32,
    pub place: usize,
    pub reason: ReasonNumber,
    pub by: Supplier,
}

// How many rows were unpacked.
#[repr(C)]
#[derive(Clone, Copy)]
pub struct UnpackAnswer {
    pub refusal: u32,
    pub place: usize,
    pub rows: u16,
}

// A text's height, and the rows dropped of all its glyphs.
#[repr(C)]
#[derive(Clone, Copy)]
pub struct TextAnswer {
    pub refusal: u32,
    pub place: usize,
    pub rows: TextRows,
}

// Whether there is a character, it, and the place after it; at the text's end all three are 0.
#[repr(C)]
#[derive(Clone, Copy)]
pub struct StepAnswer {
    pub refusal: u32,
    pub place: usize,
    pub found: bool,
    pub code: CharCode,
    pub next: usize,
}
