// Makes the calls of each file that an argument names, and writes a line for each: what it answers and, of a call that
// draws, what its dry run answers and the pixels that changed, with the reason for that where it draws a character; of
// one that puts bytes into a buffer, the buffer. A file has one font after the other: how many bytes it has, how many
// bytes of texts follow it, and how many calls there are, 4 bytes each; then the font, the texts and the calls.
#![tactic(auto)]

ghost use Rattle.std.specs.Prelude.{◌≡◌, ◌-◌, length, take, drop};

mod answers;
mod asked;
mod calls;
mod changes;
mod drawing;
mod putting;
mod reading;
mod runs;
mod shown;

use crate::calls::Call;
use crate::runs::font_calls;
use console::{QuietOutput, file_of_argument, has_argument};
use reads::u32_at;
use std::env::Env;
use std::fs::Files;
use std::io::Result;

const HEAD: usize = 12;

// The first bytes, so many if there are, and the rest.
fn cut(bytes: &[u8], len: usize) -> (&[u8], &[u8])
    ensures first { result.0.now ≡ take len bytes.now }
    ensures rest { result.1.now ≡ drop len bytes.now }
    ensures left { length result.1.now ≡ length bytes.now - len }
{
    bytes.split_at(len.min(bytes.len()))
}

fn all_fonts(rt: &impl Print, file: &[u8]) -> Result<()> {
    let mut left = file;
    while !left.is_empty() {
        let (head, body) = cut(left, HEAD);
        let size = u32_at(head, 0, 0, false) as usize;
        let texts = u32_at(head, 4, 0, false) as usize;
        let count = u32_at(head, 8, 0, false) as usize;
        let (lent, after) = cut(body, size + texts);
        let (font, _) = cut(lent, size);
        let (calls, next) = cut(after, Call::SIZE * count);
        font_calls(rt, font, lent, calls)?;
        left = next;
    }
    Ok(())
}

// Up to 999 files, none of 65,536 bytes.
fn all_files<R: Env + Files>(rt: &R, out: &impl Print) -> Result<()> {
    let mut file = [0u8; 65536];
    for i in (1..1000).take_while(|i| has_argument(rt, *i)) {
        let n = file_of_argument(rt, i, &mut file);
        all_fonts(out, &file[..n])?;
    }
    Ok(())
}

// A write that fails is not told, and what follows is written all the same.
fn main(rt: HostRuntime) {
    let _ = all_files(&rt, &QuietOutput);
}
