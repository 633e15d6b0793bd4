// Texts: the pen walks over the characters, and each glyph is drawn where the pen stands. The walk is
// made twice, so that nothing is coloured where a later character is refused.
#![tactic(auto)]

mod pass;
mod string;
mod walk;

use place::GlyphInfo;
use reads::Refusal;
pub use string::{draw_string, text_check, wrap_of};

// Where a line ends: before a glyph that would reach this many pixels, or nowhere.
#[derive(Clone, Copy)]
pub enum Wrap {
    At(u64),
    Never,
}

// Where and how a text is set.
#[derive(Clone, Copy)]
pub struct Layout {
    pub start: usize,
    pub wrap: Wrap,
    pub stride: usize,
    pub scale: usize,
}

// The pen, in pixels right of and below the start.
#[derive(Clone, Copy)]
pub struct Pen {
    pub x: usize,
    pub y: usize,
}

// The line height of a text, or why it is refused before its first character.
#[derive(Clone, Copy)]
pub enum Ready {
    Line(usize),
    Refused(Refusal),
}

// What a character does: moves the pen, or has its glyph drawn where the pen then stands, or is
// refused with this number.
#[derive(Clone, Copy)]
pub enum Placed {
    Skip(Pen),
    Glyph(Pen, GlyphInfo),
    Refused(u8),
}

// The height that a text took, in pixels, and how many rows of its glyphs were cut off.
#[repr(C)]
#[derive(Clone, Copy)]
pub struct TextRows {
    pub height: usize,
    pub dropped: usize,
}

// A text that was drawn, or the refusal.
#[derive(Clone, Copy)]
pub enum TextDrawn {
    Done(TextRows),
    Refused(Refusal),
}
