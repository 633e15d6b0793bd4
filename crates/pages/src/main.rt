// Draws the pages that standard input asks for through the view of a font, and prints what each leaves in its
// buffer as rows of dots. The input has the font's length, 4 bytes with the least significant first, the font, and
// then one page after the other; see `asked`.
#![tactic(auto)]

mod asked;
mod drawn;
mod quoted;

use crate::asked::{cut, first_page};
use crate::drawn::draw_page;
use console::{QuietOutput, Refused};
use reads::u32_at;
use std::io::Result;
use tables::Record;
use vet::Vetted;

fn all_pages(rt: &impl Print, font: &[u8], rec: Record, pages: &[u8]) -> Result<()> {
    let mut left = pages;
    while !left.is_empty() {
        let (asked, behind) = first_page(left);
        draw_page(rt, font, rec, asked)?;
        left = behind;
    }
    Ok(())
}

fn with_input(rt: &impl Print, input: &[u8]) -> Result<()> {
    let (head, body) = cut(input, 4);
    let (font, pages) = cut(body, u32_at(head, 0, 0, false) as usize);
    match vet::vet(font) {
        Vetted::Passed(rec) => all_pages(rt, font, rec, pages),
        Vetted::Refused(r) => print!(rt; "{}", Refused(r)),
    }
}

// A read that fails ends the input. A write that fails is not told, and what follows is written all the same.
fn main() {
    let mut room = [0u8; 4096];
    let n = io::read_full(0, &mut room);
    let _ = with_input(&QuietOutput, &room[..n]);
}
