// A character placed: its glyph's box under the bounds of all glyphs.
#![tactic(auto)]

mod bounds;
mod boxes;

pub use bounds::{bounds_hold, bounds_sized, dimensions};
pub use boxes::{boxed, char_info, info_of, prep_char};
use lookup::Supplier;
use reads::{GlyphIndex, Refusal};

// A glyph's bitmap is `width` wide and `height` high, and stands `pad_top` below the line's top and
// `pad_left` right of the pen.
#[repr(C)]
#[derive(Clone, Copy)]
pub struct GlyphInfo {
    pub glyph: GlyphIndex,
    pub width: u16,
    pub height: u16,
    pub pad_top: u16,
    pub pad_left: u16,
}

// The maximum bounds' height and width, in 000's order.
#[repr(C)]
#[derive(Clone, Copy)]
pub struct Extent {
    pub height: usize,
    pub width: usize,
}

// The height and width of the bounds.
#[derive(Clone, Copy)]
pub enum Sized {
    Dimensions(Extent),
    Refused(Refusal),
}

// A glyph, placed.
#[derive(Clone, Copy)]
pub enum Prepared {
    Info(GlyphInfo),
    Refused(Refusal),
}

// A character's glyph, placed, and the code that supplied it.
#[derive(Clone, Copy)]
pub enum CharPrepared {
    Info(GlyphInfo, Supplier),
    Refused(Refusal),
}
