// A pass over a text. Each text is walked over twice: without ink for the answer, from the buffer's length alone, and,
// where nothing refuses, with ink for the pixels. Both are one function, into which what a character does is compiled.
ghost use Rattle.std.specs.Prelude.{◌≡◌, length};
ghost use Rattle.bitmaps.specs.Paint.{painted};
ghost use Rattle.lookup.specs.Served.{stand_in};
ghost use Rattle.utf8.specs.Decode.{decoded, chars_of};
ghost use Rattle.text.specs.Walk.{origin, placed_drawn, in_placed};
ghost use Rattle.text.specs.Text.{text_from, in_text};
ghost use Rattle.text.specs.Within.{Settled, PlacedIn, Readable};
ghost use Rattle.text.specs.Inked.{inked, Lent, Inkable};

use crate::walk::{pen_after, placed_at, spot};
use crate::{Layout, Pen, Placed, TextDrawn, TextRows};
use bitmaps::{Drawn, Rows};
use glyphs::{glyph_drawn, show_glyph};
use lookup::Served;
use modes::Mode;
use reads::Refusal;
use tables::Record;
use utf8::{Step, step_at};

// What was placed, drawn into `len` pixels: nothing drawn, or the glyph's rows or refusal.
fn placed_drawn(
    s: &[u8],
    rec: Record,
    lay: Layout,
    line: usize,
    len: usize,
    placed: Placed,
) -> Drawn
    requires settled { Settled rec lay line }
    requires placed_in { PlacedIn 65536 placed }
    ensures { result ≡ placed_drawn s.now rec lay len placed }
{
    match placed {
        Placed::Skip(pen) => Drawn::Rows(Rows {
            drawn: 0,
            dropped: 0,
        }),
        Placed::Glyph(pen, info) => glyph_drawn(
            s,
            rec.bitmaps,
            info,
            len,
            spot(lay, pen),
            lay.stride as u16,
            lay.scale as u8,
        ),
        Placed::Refused(number) => Drawn::Refused(Refusal { number, place: 0 }),
    }
}

// The same, with the pixels coloured.
fn show_placed(
    s: &[u8],
    rec: Record,
    lay: Layout,
    line: usize,
    buf: &mut [u32],
    placed: Placed,
    colour: u32,
) -> Drawn
    requires settled { Settled rec lay line }
    requires placed_in { PlacedIn 65536 placed }
    ensures value { result ≡ placed_drawn s.now rec lay (length buf.old) placed }
    ensures buf_after { buf.new ≡ painted (in_placed s.now rec lay (length buf.old) placed) colour buf.old }
{
    match placed {
        Placed::Skip(pen) => Drawn::Rows(Rows {
            drawn: 0,
            dropped: 0,
        }),
        Placed::Glyph(pen, info) => show_glyph(
            s,
            rec.bitmaps,
            info,
            &mut *buf,
            spot(lay, pen),
            lay.stride as u16,
            lay.scale as u8,
            colour,
        ),
        Placed::Refused(number) => Drawn::Refused(Refusal { number, place: 0 }),
    }
}

// What was placed, with ink or without.
fn turn_drawn(
    s: &[u8],
    rec: Record,
    lay: Layout,
    line: usize,
    len: usize,
    buf: &mut [u32],
    placed: Placed,
    ink: bool,
    colour: u32,
) -> Drawn
    requires settled { Settled rec lay line }
    requires placed_in { PlacedIn 65536 placed }
    requires lent { Lent ink len (length buf.old) }
    ensures value { result ≡ placed_drawn s.now rec lay len placed }
    ensures buf_after { buf.new ≡ painted (inked ink (in_placed s.now rec lay len placed)) colour buf.old }
{
    if ink {
        return show_placed(s, rec, lay, line, &mut *buf, placed, colour);
    }
    placed_drawn(s, rec, lay, line, len, placed)
}

// The height and dropped rows of a text in a buffer of `len` pixels, or the refusal of the first character
// that has one, with the byte where it starts; with ink its pixels are coloured. `other` is what stands in for a code
// without a glyph.
pub(crate) fn text_pass(
    s: &[u8],
    rec: Record,
    mode: Mode,
    other: Served,
    lay: Layout,
    line: usize,
    len: usize,
    buf: &mut [u32],
    text: &[u8],
    ink: bool,
    colour: u32,
) -> TextDrawn
    requires settled { Settled rec lay line }
    requires readable { Readable text.now }
    requires inkable { Inkable ink s.now rec mode lay len text.now (length buf.old) }
    requires other_value { other ≡ stand_in s.now rec.codes mode }
    ensures value { result ≡ text_from s.now rec mode lay len (chars_of (decoded text.now)) origin 0 }
    ensures buf_after { buf.new ≡ painted (inked ink (in_text s.now rec mode lay len (chars_of (decoded text.now)) origin)) colour buf.old }
{
    let mut i: usize = 0;
    let mut pen = Pen { x: 0, y: 0 };
    let mut dropped: usize = 0;
    loop {
        let here = step_at(text, i);
        match here {
            Step::Char(code, next) => {
                let placed = placed_at(s, rec, mode, other, lay, line, code, pen);
                let drawn = turn_drawn(s, rec, lay, line, len, &mut *buf, placed, ink, colour);
                match drawn {
                    Drawn::Rows(rows) => {
                        dropped += rows.dropped as usize;
                        pen = pen_after(lay, placed, pen);
                        i = next;
                    }
                    Drawn::Refused(r) => {
                        return TextDrawn::Refused(Refusal {
                            number: r.number,
                            place: i,
                        });
                    }
                }
            }
            Step::End => {
                return TextDrawn::Done(TextRows {
                    height: pen.y + line,
                    dropped,
                });
            }
            // Not of a text that is UTF-8.
            Step::Refused(r) => {
                return TextDrawn::Refused(r);
            }
        }
    }
}
