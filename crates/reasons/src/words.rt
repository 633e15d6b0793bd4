// The reasons in words, each with the numbers of the font that make it true.
use crate::asked::Request;
use crate::picture::write_picture;
use console::Code;
use lookup::{Found, glyph_of, one_byte};
use metrics::{Measured, metrics_of};
use modes::Mode;
use place::{Prepared, boxed};
use reads::{CharCode, GlyphIndex};
use std::fmt;
use tables::{BitmapData, EncodingData, MetricsUnpacked, Record};
use why::Reason;

// As `the font's code table covers first bytes 0x01 to 0x20, and this code's is 0x4E`.
fn write_bytes<W: fmt::Write>(
    f: &mut fmt::Formatter<W>,
    which: &str,
    low: u16,
    high: u16,
    byte: u32,
) -> fmt::Result {
    write!(
        f,
        "the font's code table covers {which} bytes 0x{low:02X} to 0x{high:02X}, and this code's is 0x{byte:02X}"
    )
}

// The second-byte bounds are for whole codes where the first-byte ones are both 0.
fn write_second<W: fmt::Write>(
    f: &mut fmt::Formatter<W>,
    c: EncodingData,
    code: u32,
) -> fmt::Result {
    if one_byte(c) {
        let low = Code(c.low2 as u32);
        let high = Code(c.high2 as u32);
        write!(f, "the font's code table covers {low} to {high}")
    } else {
        write_bytes(f, "second", c.low2, c.high2, code % 256)
    }
}

// Metrics that are out of range: the first number that is.
fn write_metrics<W: fmt::Write>(
    f: &mut fmt::Formatter<W>,
    m: MetricsUnpacked,
    top: i16,
) -> fmt::Result {
    if m.width < 0 {
        write!(f, "width is {}, below 0", m.width)
    } else if m.ascent < 0 {
        write!(f, "ascent is {}, below 0", m.ascent)
    } else if m.left < 0 {
        write!(f, "left bearing is {}, below 0", m.left)
    } else if top < m.ascent {
        write!(
            f,
            "ascent is {}, above the {top} of the font's bounds",
            m.ascent
        )
    } else {
        write!(
            f,
            "ascent {} and descent {} are together outside 0 to 32,767",
            m.ascent, m.descent
        )
    }
}

fn write_order<W: fmt::Write>(f: &mut fmt::Formatter<W>, b: BitmapData) -> fmt::Result {
    let unit = match b.unit {
        0 => "1 byte",
        1 => "2 bytes",
        2 => "4 bytes",
        _ => {
            return f.write_str(
                "refusal 13: the font has scan unit code 3, which stands for no size",
            );
        }
    };
    write!(
        f,
        "refusal 13: the font has scan units of {unit}, wider than its row pad of {}",
        b.pad
    )
}

// The reasons of a glyph with these metrics, under the ascent of the font's bounds.
fn write_measured<W: fmt::Write>(
    f: &mut fmt::Formatter<W>,
    r: Request,
    font: &[u8],
    b: BitmapData,
    g: GlyphIndex,
    m: MetricsUnpacked,
    top: i16,
    reason: Reason,
) -> fmt::Result {
    match boxed(g, m, top) {
        Prepared::Info(info) => write_picture(f, r, font, b, info, reason),
        Prepared::Refused(_) => {
            write!(f, "refusal 11: it is glyph {}, whose ", g.0)?;
            write_metrics(f, m, top)
        }
    }
}

// The reasons of a glyph.
fn write_glyph<W: fmt::Write>(
    f: &mut fmt::Formatter<W>,
    r: Request,
    font: &[u8],
    rec: Record,
    g: GlyphIndex,
    reason: Reason,
) -> fmt::Result {
    match reason {
        Reason::NoBitmap => write!(
            f,
            "refusal 12: it is glyph {}, counted from 0, and the font's bitmap count is {}",
            g.0, rec.bitmaps.count
        ),
        Reason::BitOrder => write_order(f, rec.bitmaps),
        _ => match metrics_of(font, rec.metrics, g) {
            Measured::Metrics(m) => {
                let top = rec.accel.maxbounds.ascent;
                write_measured(f, r, font, rec.bitmaps, g, m, top, reason)
            }
            Measured::Refused(_) => write!(
                f,
                "refusal 10: it is glyph {}, counted from 0, and the font's metrics count is {}",
                g.0, rec.metrics.count
            ),
        },
    }
}

// The reasons of a code without a glyph.
fn write_code_reason<W: fmt::Write>(
    f: &mut fmt::Formatter<W>,
    c: EncodingData,
    code: u32,
    reason: Reason,
) -> fmt::Result {
    match reason {
        Reason::AboveCodes => f.write_str("no font of this format has a glyph above U+FFFF"),
        Reason::FirstByte => write_bytes(f, "first", c.low1, c.high1, code / 256),
        Reason::SecondByte => write_second(f, c, code),
        _ => f.write_str("the font's code table covers it, and has no glyph there"),
    }
}

// Adds, in default mode, that the default code does not help a code without a glyph.
fn write_no_default<W: fmt::Write>(
    f: &mut fmt::Formatter<W>,
    mode: Mode,
    default: u16,
    code: u32,
) -> fmt::Result {
    if !mode.default {
        return Ok(());
    }
    if default as u32 == code {
        return f.write_str("; it is the default character itself");
    }
    let default = Code(default as u32);
    write!(f, "; the default character {default} has no glyph either")
}

// Of the code that the reason speaks of, which has the glyph if there is one.
pub(crate) fn write_reason<W: fmt::Write>(
    f: &mut fmt::Formatter<W>,
    r: Request,
    font: &[u8],
    rec: Record,
    code: CharCode,
    reason: Reason,
) -> fmt::Result {
    match glyph_of(font, rec.codes, code) {
        Found::Glyph(g) => write_glyph(f, r, font, rec, g, reason),
        Found::Refused(_) => {
            write_code_reason(f, rec.codes, code.0, reason)?;
            write_no_default(f, r.mode, rec.codes.default, code.0)
        }
    }
}
