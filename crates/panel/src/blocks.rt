// A panel in half blocks: a character has two pixels, one above the other.
ghost use Rattle.std.specs.Prelude.{◌≡◌, ◌≤◌, get_or};
ghost use Rattle.panel.specs.Blocks.{block};

use std::fmt;

// The character for two pixels, a space for two clear ones.
#[tactic(auto, unfolding(crate::specs::Blocks::block))]
fn block(upper: u32, lower: u32) -> &'static str
    ensures { result.now ≡ block upper lower }
{
    match (upper == 0, lower == 0) {
        (true, true) => " ",
        (true, false) => "▄",
        (false, true) => "▀",
        (false, false) => "█",
    }
}

// A pixel of a row, 0 beyond its last one.
fn pixel_at(row: &[u32], x: usize) -> u32
    ensures { result ≡ get_or row.now x 0 }
{
    row.get(x).copied().unwrap_or(0)
}

// Two rows in a line. Where there is no lower one, its pixels are 0.
fn write_line<W: fmt::Write>(
    f: &mut fmt::Formatter<W>,
    upper: &[u32],
    lower: &[u32],
) -> fmt::Result {
    for (x, pixel) in upper.iter().enumerate() {
        f.write_str(block(*pixel, pixel_at(lower, x)))?;
    }
    f.write_char('\n')
}

// All rows, two a line.
pub(crate) fn write_blocks<W: fmt::Write>(
    f: &mut fmt::Formatter<W>,
    pixels: &[u32],
    width: usize,
) -> fmt::Result
    requires { (1 ≤ width) × (width ≤ 65535) }
{
    for rows in pixels.chunks(2 * width) {
        let (upper, lower) = rows.split_at_checked(width).unwrap_or((rows, &[]));
        write_line(f, upper, lower)?;
    }
    Ok(())
}
