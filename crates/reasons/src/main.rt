// Says why each character of a text, or one code, is not on the glass, or that it is drawn: a line for each. Standard
// input has what is asked, the text and the font; see `asked`. The font is loaded without vetting, since most reasons
// that lie in it are of fonts that vetting refuses; a line before the others says so. The last line says whether all
// are drawn whole, or what is refused. These two are for a script.
#![tactic(auto)]

mod asked;
mod character;
mod lines;
mod picture;
mod words;

ghost use Rattle.std.specs.Prelude.{◌≡◌, length};

use crate::asked::{HEAD, Kind, Request, asked_of};
use crate::lines::{write_code, write_text};
use console::{Fault, input_into, print_quietly};
use load::Loaded;
use outcome::ok_place;
use std::fmt;
use tables::{Permit, Record, guard, record_fits};
use utf8::Checked;
use vet::Vetted;

// What is asked, 65,536 bytes of a text, which is one more than the library takes, 573,440 of a font, and a byte by
// which a longer input is seen.
const ROOM: usize = HEAD + 65536 + 573440 + 1;

fn loaded(font: &[u8]) -> Result<Record, Fault> {
    match load::load_pcf(font) {
        Loaded::Font(rec) => Ok(rec),
        Loaded::Refused(no) => Err(Fault::Font(no)),
    }
}

// The tests that every drawing makes come first.
fn permitted(permit: Permit) -> Result<(), Fault> {
    match permit {
        Permit::Given => Ok(()),
        Permit::Refused(no) => Err(Fault::Text(no)),
    }
}

// A text is refused as a whole, as when it is drawn.
fn checked(text: &[u8]) -> Result<(), Fault> {
    match utf8::check(text) {
        Checked::Whole => Ok(()),
        Checked::Refused(no) => Err(Fault::Text(no)),
    }
}

// What is printed of a request. The text is UTF-8, and the record the font's.
#[derive(Drop)]
struct Printout<'a> {
    request: Request,
    text: &'a [u8],
    font: &'a [u8],
    rec: Record,
}

impl fmt::Display for Printout<'_> {
    fn fmt<W: fmt::Write>(&self, f: &mut fmt::Formatter<W>) -> fmt::Result {
        let r = self.request;
        if let Vetted::Refused(no) = vet::vet(self.font) {
            writeln!(f, "{}", Fault::Vetting(no))?;
        }
        let whole = match r.kind {
            Kind::Characters => write_text(f, r, self.text, self.font, self.rec)?,
            Kind::Code => write_code(f, r, self.font, self.rec, r.code)?,
        };
        f.write_str(if whole {
            "all drawn\n"
        } else {
            "not all drawn\n"
        })
    }
}

// What is printed of an input.
fn told(input: &[u8]) -> Result<Printout<'_>, Fault> {
    let request = asked_of(input).ok_or(Fault::Input)?;
    let (text, font) = input[HEAD..].split_at(request.text as usize);
    let rec = loaded(font)?;
    permitted(guard(
        record_fits(font.len(), rec),
        ok_place(request.start, request.stride, request.scale),
    ))?;
    checked(text)?;
    Ok(Printout {
        request,
        text,
        font,
        rec,
    })
}

fn answer(room: &mut [u8; ROOM]) -> Result<Printout<'_>, Fault> {
    told(input_into(room)?)
}

// Room for the input and a byte more: an array, as a program that allocates could run out of memory. Its length comes
// from a law: to count so far passes the prover's stack on some machines.
fn room() -> [u8; ROOM]
    ensures { 639013 ≡ length result }
{
    [0; ROOM]
}

fn main() {
    let mut input = room();
    print_quietly(answer(&mut input));
}
