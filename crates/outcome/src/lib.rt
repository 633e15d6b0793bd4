// What drawing or unpacking a bitmap answers, from the buffer's length alone: the dry run, and the tests
// that every drawing makes before its first pixel. Nothing is coloured here.
#![tactic(auto)]

mod check;
mod past;

pub use check::{bitmap_check, bitmap_ready, ok_pair, ok_place, rows_drawn, shown_at, unpacked_at};
pub use past::{corner_past, rows_past};
