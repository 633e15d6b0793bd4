// A placed glyph drawn or unpacked, and a character drawn. Each call that takes a record tests it once;
// `glyph_drawn` and `show_glyph`, for texts, which have tested it, take a bitmap table as it is.
#![tactic(auto)]

mod character;
mod glyph;
mod unpacking;

use bitmaps::Rows;
pub use character::{char_check, draw_char};
pub use glyph::{draw_glyph, glyph_check, glyph_drawn, place_of, show_glyph};
use lookup::Supplier;
use place::GlyphInfo;
use reads::Refusal;
pub use unpacking::{unpack_check, unpack_glyph};

// The placed glyph, its rows drawn and dropped, and the code that supplied it.
#[derive(Clone, Copy)]
pub enum CharDrawn {
    Glyph(GlyphInfo, Rows, Supplier),
    Refused(Refusal),
}
