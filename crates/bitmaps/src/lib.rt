// A glyph's bitmap: its rows of bits, the cut at the buffer's end, the pixels it colours.
#![tactic(auto)]

mod data;
mod units;

pub use data::{bytes_past, no_bitmap, offset_of, row_byte, row_stride, rows_short, unreadable};
use reads::Refusal;
pub use units::{bit_of, held_byte, order_of, row_bytes, shown};

// How the rows of a bitmap table are written: in scan units of 1, 2 or 4 bytes (code 0, 1, 2), the most
// significant byte of a unit first or last, its top bit or its lowest bit leftmost.
#[derive(Clone, Copy)]
pub struct Order {
    pub unit: u8,
    pub big: bool,
    pub top: bool,
}

// How many rows were drawn, and how many the buffer's end cut off.
#[repr(C)]
#[derive(Clone, Copy)]
pub struct Rows {
    pub drawn: u16,
    pub dropped: u16,
}

// What drawing answers.
#[derive(Clone, Copy)]
pub enum Drawn {
    Rows(Rows),
    Refused(Refusal),
}

// How many rows were unpacked.
#[derive(Clone, Copy)]
pub enum Unpacked {
    Rows(u16),
    Refused(Refusal),
}
