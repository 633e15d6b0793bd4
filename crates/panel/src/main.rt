// Draws a text with a font on a panel and prints the panel, as half blocks or as a picture. Standard input
// has what is asked, the text and the font; see `asked`.
#![tactic(auto)]

mod asked;
mod blocks;
mod picture;
mod served;

ghost use Rattle.std.specs.Prelude.{◌≡◌, ◌≤◌, length};
ghost use Rattle.panel.specs.Asked.{Sized};

use crate::asked::{HEAD, Kind, Request, asked_of};
use crate::blocks::write_blocks;
use crate::picture::write_picture;
use crate::served::write_served;
use console::{Fault, input_into, print_quietly};
use std::fmt;
use tables::EncodingData;
use text::{TextDrawn, TextRows, draw_string};
use vet::Vetted;

// What is asked, 65,536 bytes of a text, which is one more than the library takes, 573,440 of a font, and a byte by
// which a longer input is seen.
const ROOM: usize = HEAD + 65536 + 573440 + 1;

const PIXELS: usize = 65536;

const COLOUR: u32 = 1;

// The text's rows and the font's codes. The panel's pixels, all of them 0, are coloured.
fn drawn(
    r: Request,
    text: &[u8],
    font: &[u8],
    panel: &mut [u32],
) -> Result<(TextRows, EncodingData), Fault>
    ensures { length panel.new ≡ length panel.old }
{
    let rec = match vet::vet(font) {
        Vetted::Passed(rec) => rec,
        Vetted::Refused(no) => return Err(Fault::Font(no)),
    };
    let codes = rec.codes;
    match draw_string(
        font, rec, r.mode, text, panel, 0, r.wrap, r.width, r.scale, COLOUR,
    ) {
        TextDrawn::Done(rows) => Ok((rows, codes)),
        TextDrawn::Refused(no) => Err(Fault::Text(no)),
    }
}

// What is printed of a request: the panel and, where it is in half blocks, what the text lost and how high it is, what
// the default code shows, and what the font lacks.
#[derive(Drop)]
struct Printout<'a> {
    request: Request,
    text: &'a [u8],
    font: &'a [u8],
    codes: EncodingData,
    pixels: &'a [u32],
    rows: TextRows,
    ghost sized: { Sized request },
}

impl fmt::Display for Printout<'_> {
    fn fmt<W: fmt::Write>(&self, f: &mut fmt::Formatter<W>) -> fmt::Result {
        let r = self.request;
        let rows = self.rows;
        match r.kind {
            Kind::Blocks => {
                write_blocks(f, self.pixels, r.width)?;
                writeln!(f, "dropped {} height {}", rows.dropped, rows.height)?;
                write_served(f, self.text, self.font, self.codes, r.mode)
            }
            Kind::Picture => write_picture(f, self.pixels, r.width, r.height),
        }
    }
}

// What is printed of an input. The panel's pixels are the first of these, all of them 0.
fn shown<'a>(input: &'a [u8], room: &'a mut [u32; PIXELS]) -> Result<Printout<'a>, Fault> {
    let request = asked_of(input).ok_or(Fault::Input)?;
    let (text, font) = input[HEAD..].split_at(request.text as usize);
    let pixels = &mut room[..request.len];
    let (rows, codes) = drawn(request, text, font, pixels)?;
    Ok(Printout {
        request,
        text,
        font,
        codes,
        pixels,
        rows,
    })
}

fn answer<'a>(
    room: &'a mut [u8; ROOM],
    pixels: &'a mut [u32; PIXELS],
) -> Result<Printout<'a>, Fault> {
    shown(input_into(room)?, pixels)
}

// Room for the input and a byte more: an array, as a program that allocates could run out of memory. Its length comes
// from a law: to count so far passes the prover's stack on some machines.
fn room() -> [u8; ROOM]
    ensures { 639009 ≡ length result }
{
    [0; ROOM]
}

// A clear panel.
fn clear() -> [u32; PIXELS]
    ensures { 65536 ≡ length result }
{
    [0; PIXELS]
}

fn main() {
    let mut input = room();
    let mut pixels = clear();
    print_quietly(answer(&mut input, &mut pixels));
}
