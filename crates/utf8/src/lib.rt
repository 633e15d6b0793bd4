// Stepping through UTF-8.
#![tactic(auto)]

mod stepping;
mod whole;

use reads::{CharCode, Refusal};
pub use stepping::step_at;
pub use whole::check;

// The character at a place and the place after it; or the text's end; or 19 where none starts.
#[derive(Clone, Copy)]
pub enum Step {
    Char(CharCode, usize),
    End,
    Refused(Refusal),
}

// What a first byte says: how many bytes the character takes (0: none starts so), and the range of
// its second byte.
#[derive(Clone, Copy)]
pub struct Lead {
    pub size: u8,
    pub low: u8,
    pub high: u8,
}

// Whether a text is short enough and UTF-8; if not, 19 with its place.
#[derive(Clone, Copy)]
pub enum Checked {
    Whole,
    Refused(Refusal),
}
