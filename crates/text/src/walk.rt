// The pen's walk: what a character does with the pen, and where the pen goes then.
ghost use Rattle.std.specs.Prelude.{◌≡◌, ◌≤◌};
ghost use Rattle.lookup.specs.Served.{stand_in};
ghost use Rattle.place.specs.Info.{info_in};
ghost use Rattle.text.specs.Walk.{newline, advance_of, reaches, wrapped, place_info, placed, spot, pen_after};
ghost use Rattle.text.specs.Within.{Settled, PenIn, PlacedIn, Moved, placed_pen};

use crate::{Layout, Pen, Placed, Wrap};
use lookup::{Served, glyph_of, or_else};
use metrics::{Measured, metrics_of};
use modes::Mode;
use place::{GlyphInfo, Prepared, boxed};
use reads::{CharCode, GlyphIndex};
use tables::Record;

fn newline(line: usize, pen: Pen) -> Pen
    requires { (line ≤ 4194240) × PenIn 65535 pen }
    ensures { result ≡ newline line pen }
{
    Pen {
        x: 0,
        y: pen.y + line,
    }
}

// How far a glyph moves the pen.
fn advance_of(lay: Layout, info: GlyphInfo) -> usize
    requires { lay.scale ≤ 64 }
    ensures { result ≡ advance_of lay info }
{
    info.width as usize * lay.scale
}

fn reaches(wrap: Wrap, x: usize) -> bool
    ensures { result ≡ reaches wrap x }
{
    match wrap {
        Wrap::At(w) => w <= x as u64,
        Wrap::Never => false,
    }
}

// The pen after a newline, if this glyph would reach the line's end, and else as it stands.
fn wrapped(rec: Record, lay: Layout, line: usize, info: GlyphInfo, pen: Pen) -> Pen
    requires settled { Settled rec lay line }
    requires pen_in { PenIn 65535 pen }
    ensures { result ≡ wrapped rec lay info pen }
{
    let wrap = lay.wrap;
    if reaches(wrap, pen.x + advance_of(lay, info)) {
        return newline(line, pen);
    }
    pen
}

// As `place::info_of`, asked in two steps: the compiler then puts both here, and no box goes through memory.
fn place_glyph(s: &[u8], rec: Record, lay: Layout, line: usize, g: GlyphIndex, pen: Pen) -> Placed
    requires settled { Settled rec lay line }
    requires pen_in { PenIn 65535 pen }
    ensures { result ≡ place_info rec lay pen (info_in s.now rec g) }
{
    let top = rec.accel.maxbounds.ascent;
    let measured = metrics_of(s, rec.metrics, g);
    match measured {
        Measured::Metrics(m) => {
            let info = boxed(g, m, top);
            match info {
                Prepared::Info(i) => Placed::Glyph(wrapped(rec, lay, line, i, pen), i),
                Prepared::Refused(r) => Placed::Refused(r.number),
            }
        }
        Measured::Refused(r) => Placed::Refused(r.number),
    }
}

// What a character does with the pen here: both passes over a text ask this of each character. `other` is what stands
// in for a code without a glyph; the mode is for the contract alone.
pub(crate) fn placed_at(
    s: &[u8],
    rec: Record,
    mode: Mode,
    other: Served,
    lay: Layout,
    line: usize,
    code: CharCode,
    pen: Pen,
) -> Placed
    requires settled { Settled rec lay line }
    requires pen_in { PenIn 65535 pen }
    requires other_value { other ≡ stand_in s.now rec.codes mode }
    ensures { result ≡ placed s.now rec mode lay code.0 pen }
{
    if code.0 == 13 {
        return Placed::Skip(pen);
    }
    if code.0 == 10 {
        return Placed::Skip(newline(line, pen));
    }
    let own = glyph_of(s, rec.codes, code);
    let served = or_else(code, own, other);
    match served {
        Served::Glyph(g, _) => place_glyph(s, rec, lay, line, g, pen),
        Served::Refused(_) => Placed::Skip(pen),
    }
}

// Where a pen stands in the buffer.
pub(crate) fn spot(lay: Layout, pen: Pen) -> usize
    requires { (lay.start ≤ 2147483647) × (lay.stride ≤ 65535) × PenIn 65536 pen }
    ensures { result ≡ (spot lay pen).p }
{
    lay.start + pen.y * lay.stride + pen.x
}

// The pen after what was placed.
pub(crate) fn pen_after(lay: Layout, placed: Placed, old: Pen) -> Pen
    requires scale_bound { lay.scale ≤ 64 }
    requires placed_in { PlacedIn 65536 placed }
    ensures value { result ≡ pen_after lay placed old }
    ensures moved { Moved (placed_pen placed old) result }
{
    match placed {
        Placed::Skip(pen) => pen,
        Placed::Glyph(pen, info) => Pen {
            x: pen.x + advance_of(lay, info),
            y: pen.y,
        },
        Placed::Refused(number) => old,
    }
}
