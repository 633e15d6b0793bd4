// The reasons of a glyph that can be placed: how large it is, where it begins, and what hinders it.
use crate::asked::Request;
use bitmaps::{offset_of, row_stride};
use glyphs::place_of;
use outcome::ok_place;
use place::GlyphInfo;
use std::fmt;
use tables::BitmapData;
use why::Reason;

// How many there are of something, as `1 pixel` or `2 pixels`.
#[derive(Clone, Copy)]
struct Count(usize, &'static str);

impl fmt::Display for Count {
    fn fmt<W: fmt::Write>(&self, f: &mut fmt::Formatter<W>) -> fmt::Result {
        write!(f, "{} {}", self.0, self.1)?;
        if self.0 == 1 { Ok(()) } else { write!(f, "s") }
    }
}

// As `5 by 7 pixels`.
#[derive(Clone, Copy)]
struct Size(GlyphInfo);

impl fmt::Display for Size {
    fn fmt<W: fmt::Write>(&self, f: &mut fmt::Formatter<W>) -> fmt::Result {
        write!(f, "{} by {} pixels", self.0.width, self.0.height)
    }
}

// As ` at scale 2`, of a scale above 1.
#[derive(Clone, Copy)]
struct Scaled(usize);

impl fmt::Display for Scaled {
    fn fmt<W: fmt::Write>(&self, f: &mut fmt::Formatter<W>) -> fmt::Result {
        match self.0 {
            1 => Ok(()),
            scale => write!(f, " at scale {scale}"),
        }
    }
}

// The pixel that a glyph begins at; outside the limits, where nothing is drawn, 0.
fn first_pixel(info: GlyphInfo, start: usize, stride: usize, scale: usize) -> usize {
    if ok_place(start, stride, scale) {
        return place_of(info, start, stride as u16, scale as u8);
    }
    0
}

// How many whole lines of a panel of `len` pixels are left from this pixel on.
fn whole_lines(len: usize, pixel: usize, stride: usize) -> usize {
    len.saturating_sub(pixel).checked_div(stride).unwrap_or(0)
}

// Whether a glyph that begins at this pixel runs past its line's right end, where nothing stops it.
fn passes_line(first: usize, width: u16, start: usize, stride: usize, scale: usize) -> bool {
    if ok_place(start, stride, scale) {
        return stride < first % stride + width as usize * scale;
    }
    false
}

// As `5 by 7 pixels from pixel 74 on`, or `5 by 7 pixels at scale 2 from pixel 74 on`.
fn write_place<W: fmt::Write>(
    f: &mut fmt::Formatter<W>,
    r: Request,
    info: GlyphInfo,
    first: usize,
) -> fmt::Result {
    write!(f, "{}{} from pixel {first} on", Size(info), Scaled(r.scale))
}

// Adds that a glyph runs past its line's right end, if it does.
fn write_passing<W: fmt::Write>(
    f: &mut fmt::Formatter<W>,
    r: Request,
    info: GlyphInfo,
    first: usize,
) -> fmt::Result {
    if passes_line(first, info.width, r.start, r.stride, r.scale) {
        f.write_str(", and it runs past the right end of its line")?;
    }
    Ok(())
}

fn write_data<W: fmt::Write>(
    f: &mut fmt::Formatter<W>,
    font: &[u8],
    b: BitmapData,
    info: GlyphInfo,
) -> fmt::Result {
    let step = row_stride(info.width, b.pad) as usize;
    let from = offset_of(font, b, info.glyph);
    let (size, row) = (Size(info), Count(step, "byte"));
    write!(
        f,
        "refusal 14: its bitmap, {size} in rows of {row}, begins at byte {from} "
    )?;
    write!(f, "of the font's bitmap data, which has {} bytes", b.size)
}

// The whole lines that are left for a glyph and, above scale 1, for how many of its rows they count.
fn write_lines<W: fmt::Write>(
    f: &mut fmt::Formatter<W>,
    r: Request,
    first: usize,
    rows: usize,
) -> fmt::Result {
    let lines = whole_lines(r.len, first, r.stride);
    let have = if r.len == 1 { "has" } else { "have" };
    let pixels = Count(r.len, "pixel");
    write!(f, "from pixel {first} on the panel's {pixels} {have} ")?;
    if lines == 0 {
        return write!(f, "no whole line of {} left", r.stride);
    }
    write!(f, "{} of {} left", Count(lines, "whole line"), r.stride)?;
    if r.scale != 1 {
        let count = if lines == 1 { "counts" } else { "count" };
        write!(f, ", which {count} for ")?;
        match rows {
            0 => f.write_str("no row")?,
            _ => write!(f, "{rows} rows")?,
        }
    }
    Ok(())
}

// Where no row is left, none runs past its line.
fn write_cut<W: fmt::Write>(
    f: &mut fmt::Formatter<W>,
    r: Request,
    info: GlyphInfo,
    first: usize,
    cut: u16,
) -> fmt::Result {
    let are = if cut == 1 { "is" } else { "are" };
    let height = info.height;
    write!(
        f,
        "{cut} of its {height} rows {are} cut{}: ",
        Scaled(r.scale)
    )?;
    if r.len <= first {
        write!(
            f,
            "it begins at pixel {first}, beyond the end of the panel, which has "
        )?;
        return write!(f, "{}", Count(r.len, "pixel"));
    }
    let rows = height.saturating_sub(cut) as usize;
    write_lines(f, r, first, rows)?;
    if rows != 0 {
        write_passing(f, r, info, first)?;
    }
    Ok(())
}

// A picture without width or height has no pixel that could be set.
fn write_blank<W: fmt::Write>(f: &mut fmt::Formatter<W>, info: GlyphInfo) -> fmt::Result {
    write!(f, "blank, as a space is: ")?;
    if (info.width == 0) | (info.height == 0) {
        write!(f, "its bitmap is {}", Size(info))
    } else {
        write!(f, "none of its {} is set", Size(info))
    }
}

fn write_short<W: fmt::Write>(
    f: &mut fmt::Formatter<W>,
    r: Request,
    info: GlyphInfo,
    first: usize,
) -> fmt::Result {
    write!(f, "refusal 16: ")?;
    write_place(f, r, info, first)?;
    write!(f, " pass the end of the panel, which has ")?;
    write!(f, "{} in lines of {}", Count(r.len, "pixel"), r.stride)
}

// The reasons before these are said elsewhere. They have their names here, so that a new one is not forgotten.
pub(crate) fn write_picture<W: fmt::Write>(
    f: &mut fmt::Formatter<W>,
    r: Request,
    font: &[u8],
    b: BitmapData,
    info: GlyphInfo,
    reason: Reason,
) -> fmt::Result {
    let first = first_pixel(info, r.start, r.stride, r.scale);
    match reason {
        Reason::BitmapShort => write_data(f, font, b, info),
        Reason::BufferShort => write_short(f, r, info, first),
        Reason::RowsCut(cut) => write_cut(f, r, info, first, cut),
        Reason::Blank => write_blank(f, info),
        Reason::Drawn => {
            write!(f, "drawn: ")?;
            write_place(f, r, info, first)?;
            write_passing(f, r, info, first)
        }
        Reason::AboveCodes | Reason::FirstByte | Reason::SecondByte | Reason::EmptyEntry => Ok(()),
        Reason::NoMetrics | Reason::BadMetrics | Reason::NoBitmap | Reason::BitOrder => Ok(()),
    }
}
