// What the input asks. It begins with nine numbers of four bytes, the least significant first: 0 for the characters of
// a text or 1 for one code, that code, the panel's width and height, the start, the stride, the scale, the mode, and
// the length of the text. The text follows, and then the font's bytes to the end.
ghost use Rattle.std.specs.Prelude.{◌≡◌, length, IfSome};
ghost use Rattle.std.specs.Result.{result_ok};
ghost use Rattle.reasons.specs.Asked.{kind_of, request_of, asked_of, Inside};

use console::{UnknownKind, area, number_in};
use modes::{Mode, is_known, mode_of};
use reads::CharCode;

pub(crate) const HEAD: usize = 36;

#[derive(Clone, Copy)]
pub(crate) enum Kind {
    Characters,
    Code,
}

impl TryFrom<u32> for Kind {
    type Error = UnknownKind;

    ghost try_from_gives = { λ number gives. result_ok gives ≡ kind_of number };

    fn try_from(number: u32) -> Result<Kind, UnknownKind> {
        match number {
            0 => Ok(Kind::Characters),
            1 => Ok(Kind::Code),
            _ => Err(UnknownKind),
        }
    }
}

// `len` is width × height, `text` the text's length.
#[derive(Clone, Copy)]
pub(crate) struct Request {
    pub(crate) kind: Kind,
    pub(crate) code: CharCode,
    pub(crate) len: usize,
    pub(crate) start: usize,
    pub(crate) stride: usize,
    pub(crate) scale: usize,
    pub(crate) mode: Mode,
    pub(crate) text: u32,
}

// The numbers as they stand, after the first.
fn request_of(input: &[u8], kind: Kind) -> Request
    ensures { result ≡ request_of input.now kind }
{
    Request {
        kind,
        code: CharCode(number_in(input, 1)),
        len: area(number_in(input, 2), number_in(input, 3)),
        start: number_in(input, 4) as usize,
        stride: number_in(input, 5) as usize,
        scale: number_in(input, 6) as usize,
        mode: mode_of(number_in(input, 7)),
        text: number_in(input, 8),
    }
}

// Nothing where the kind or the mode is unknown, or the text doesn't lie in the input.
pub(crate) fn asked_of(input: &[u8]) -> Option<Request>
    ensures value { result ≡ asked_of input.now }
    ensures inside { IfSome result (Inside (length input.now)) }
{
    let kind = Kind::try_from(number_in(input, 0)).ok()?;
    if !is_known(number_in(input, 7)) {
        return None;
    }
    let request = request_of(input, kind);
    if HEAD + request.text as usize <= input.len() {
        Some(request)
    } else {
        None
    }
}
