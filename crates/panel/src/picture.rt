// A panel as a picture, in the plain PBM format: a digit for each pixel.
ghost use Rattle.std.specs.Prelude.{◌≡◌, ◌≤◌};
ghost use Rattle.panel.specs.Picture.{digit};

use std::fmt;

// The format's lines have at most 70 characters.
const LINE: usize = 64;

// '1' for a pixel with a colour, '0' for a clear one.
#[tactic(auto, unfolding(crate::specs::Picture::digit))]
fn digit(pixel: u32) -> char
    ensures { result ≡ digit pixel }
{
    if pixel == 0 { '0' } else { '1' }
}

// A row's pixels, in as many lines as they take.
fn write_row<W: fmt::Write>(f: &mut fmt::Formatter<W>, row: &[u32]) -> fmt::Result {
    for line in row.chunks(LINE) {
        for pixel in line {
            f.write_char(digit(*pixel))?;
        }
        f.write_char('\n')?;
    }
    Ok(())
}

pub(crate) fn write_picture<W: fmt::Write>(
    f: &mut fmt::Formatter<W>,
    pixels: &[u32],
    width: usize,
    height: usize,
) -> fmt::Result
    requires { 1 ≤ width }
{
    writeln!(f, "P1\n{width} {height}")?;
    for row in pixels.chunks(width) {
        write_row(f, row)?;
    }
    Ok(())
}
