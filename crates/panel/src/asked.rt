// What the input asks for. It begins with eight numbers of four bytes, the least significant first: what to print, the
// panel's width and height, the scale, where lines wrap (its lower half and its upper one), the mode, and the length of
// the text. The text follows, and then the font's bytes to the end.
ghost use Rattle.std.specs.Prelude.{◌≡◌, length, IfSome};
ghost use Rattle.std.specs.Result.{result_ok};
ghost use Rattle.panel.specs.Asked.{both_halves, kind_of, request_of, is_sound, asked_of, Printable};

use console::{UnknownKind, area, number_in};
use modes::{Mode, is_known, mode_of};
use text::{Wrap, wrap_of};

pub(crate) const HEAD: usize = 32;

#[derive(Clone, Copy)]
pub(crate) enum Kind {
    Blocks,
    Picture,
}

impl TryFrom<u32> for Kind {
    type Error = UnknownKind;

    ghost try_from_gives = { λ number gives. result_ok gives ≡ kind_of number };

    fn try_from(number: u32) -> Result<Kind, UnknownKind> {
        match number {
            0 => Ok(Kind::Blocks),
            1 => Ok(Kind::Picture),
            _ => Err(UnknownKind),
        }
    }
}

// `len` is width × height, `text` the text's length.
#[derive(Clone, Copy)]
pub(crate) struct Request {
    pub(crate) kind: Kind,
    pub(crate) width: usize,
    pub(crate) height: usize,
    pub(crate) len: usize,
    pub(crate) scale: usize,
    pub(crate) wrap: Wrap,
    pub(crate) mode: Mode,
    pub(crate) text: u32,
}

// A number of eight bytes, of its two halves.
fn both_halves(low: u32, high: u32) -> u64
    ensures { result ≡ both_halves low high }
{
    high as u64 * 4294967296 + low as u64
}

// The numbers as they stand, after the first.
fn request_of(input: &[u8], kind: Kind) -> Request
    ensures { result ≡ request_of input.now kind }
{
    let width = number_in(input, 1);
    let height = number_in(input, 2);
    Request {
        kind,
        width: width as usize,
        height: height as usize,
        len: area(width, height),
        scale: number_in(input, 3) as usize,
        wrap: wrap_of(both_halves(number_in(input, 4), number_in(input, 5))),
        mode: mode_of(number_in(input, 6)),
        text: number_in(input, 7),
    }
}

// Whether an input of `len` bytes can ask for this: a width of 1 to 65,535, 1 to 65,536 pixels, and a text that lies in
// the input.
fn is_sound(len: usize, r: Request) -> bool
    ensures { result ≡ is_sound len r }
{
    (1 <= r.width)
        & (r.width <= 65535)
        & (1 <= r.height)
        & (r.len <= 65536)
        & (HEAD + r.text as usize <= len)
}

// Nothing where the kind or the mode is unknown, or no input of this length can ask for it.
pub(crate) fn asked_of(input: &[u8]) -> Option<Request>
    ensures value { result ≡ asked_of input.now }
    ensures printable { IfSome result (Printable (length input.now)) }
{
    let kind = Kind::try_from(number_in(input, 0)).ok()?;
    if !is_known(number_in(input, 6)) {
        return None;
    }
    let request = request_of(input, kind);
    if is_sound(input.len(), request) {
        Some(request)
    } else {
        None
    }
}
