// Drawing a glyph's bitmap into a buffer of pixels. Whatever can refuse is decided first, from the
// buffer's length, as `outcome::shown_at` decides it; only then is the first pixel coloured.
#![tactic(auto)]

mod bar;
mod columns;
mod draw;
mod rows;

pub use draw::{draw_bitmap, show_at};
