// A page drawn: what was asked for, the answer, the dry run's answer, and the pixels.
use crate::asked::Asked;
use console::Refused;
use font::string_through;
use modes::plain;
use std::io;
use tables::Record;
use text::{TextDrawn, text_check};

const MOST: usize = 128;

const COLOUR: u32 = 1;

fn print_answer(rt: &impl Print, drawn: TextDrawn) -> io::Result<()> {
    match drawn {
        TextDrawn::Done(rows) => print!(rt; "height {}, dropped {}", rows.height, rows.dropped),
        TextDrawn::Refused(r) => print!(rt; "{}", Refused(r)),
    }
}

// '#' for a pixel of the colour, '.' for a clear one, 'x' for any other.
fn dot(pixel: u32) -> char {
    match pixel {
        COLOUR => '#',
        0 => '.',
        _ => 'x',
    }
}

// The pixels, a line of `stride` after the other; the last line may be shorter.
fn print_rows(rt: &impl Print, buf: &[u32], stride: usize) -> io::Result<()> {
    // With a stride of 0 no line ends before the last pixel.
    let line = if stride == 0 { MOST } else { stride };
    for row in buf.chunks(line) {
        for pixel in row {
            print!(rt; "{}", dot(*pixel))?;
        }
        println!(rt)?;
    }
    Ok(())
}

// A page whose buffer is longer than any is left out, and said to be.
pub(crate) fn draw_page(
    rt: &impl Print,
    font: &[u8],
    rec: Record,
    asked: Asked<'_>,
) -> io::Result<()> {
    let Asked {
        text,
        len,
        stride,
        wrap,
        scale,
        old,
        ..
    } = asked;
    asked.print(rt)?;
    let mut room = [old; MOST];
    let Some(buf) = room.get_mut(..len) else {
        return println!(rt; "too many pixels");
    };
    let mode = plain();
    let drawn = string_through(font, rec, mode, text, buf, 0, wrap, stride, scale, COLOUR);
    print_answer(rt, drawn)?;
    print!(rt; "; dry run ")?;
    print_answer(
        rt,
        text_check(font, rec, mode, text, len, 0, wrap, stride, scale),
    )?;
    println!(rt)?;
    print_rows(rt, buf, stride)?;
    println!(rt)
}
