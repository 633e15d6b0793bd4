// A page that is asked for. It begins with seven numbers of four bytes, the least significant first: the lengths of
// its title and its text, how many pixels its buffer has, the stride, where lines wrap (nowhere, if every bit is
// set), the scale, and the value that each pixel has before. The title and the text follow.
ghost use Rattle.std.specs.Prelude.{◌≡◌, ◌≤◌, ◌-◌, length, take, drop};

use crate::quoted::Quoted;
use reads::u32_at;
use std::io;
use text::Wrap;

const HEAD: usize = 28;

#[derive(Clone, Copy)]
pub(crate) struct Asked<'a> {
    pub(crate) title: &'a [u8],
    pub(crate) text: &'a [u8],
    pub(crate) len: usize,
    pub(crate) stride: usize,
    pub(crate) wrap: Wrap,
    pub(crate) scale: usize,
    pub(crate) old: u32,
}

// The first bytes, so many if there are, and the rest.
pub(crate) fn cut(bytes: &[u8], len: usize) -> (&[u8], &[u8])
    ensures first { result.0.now ≡ take len bytes.now }
    ensures rest { result.1.now ≡ drop len bytes.now }
    ensures left { length result.1.now ≡ length bytes.now - len }
{
    bytes.split_at(len.min(bytes.len()))
}

fn wrap_of(n: u32) -> Wrap {
    if n == u32::MAX {
        Wrap::Never
    } else {
        Wrap::At(u64::from(n))
    }
}

// The first page of these, and those behind it.
pub(crate) fn first_page(pages: &[u8]) -> (Asked<'_>, &[u8])
    ensures { length result.1.now ≤ length pages.now - 28 }
{
    let (head, body) = cut(pages, HEAD);
    let (title, body) = cut(body, u32_at(head, 0, 0, false) as usize);
    let (text, behind) = cut(body, u32_at(head, 4, 0, false) as usize);
    let asked = Asked {
        title,
        text,
        len: u32_at(head, 8, 0, false) as usize,
        stride: u32_at(head, 12, 0, false) as usize,
        wrap: wrap_of(u32_at(head, 16, 0, false)),
        scale: u32_at(head, 20, 0, false) as usize,
        old: u32_at(head, 24, 0, false),
    };
    (asked, behind)
}

impl Asked<'_> {
    pub(crate) fn print(self, rt: &impl Print) -> io::Result<()> {
        rt.write_all(self.title)?;
        print!(rt;
            ": text {}, stride {}, pixels {}",
            Quoted(self.text),
            self.stride,
            self.len
        )?;
        match self.wrap {
            Wrap::At(w) => print!(rt; ", wrap at {w}")?,
            Wrap::Never => print!(rt; ", no wrap")?,
        }
        println!(rt; ", scale {}", self.scale)
    }
}
