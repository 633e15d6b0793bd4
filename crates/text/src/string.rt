// Drawing a text.
ghost use Rattle.std.specs.Prelude.{◌≡◌, length};
ghost use Rattle.text.specs.Text.{ready, draw_string, string_leaves};
ghost use Rattle.text.specs.Walk.{wrap_of};

use crate::pass::text_pass;
use crate::{Layout, Ready, TextDrawn, Wrap};
use lookup::stand_in;
use modes::Mode;
use outcome::ok_place;
use place::{Sized, bounds_sized};
use tables::{Permit, Record, guard, record_fits};
use utf8::{Checked, check};

// The line height, or what refuses the text before its first character: 6, 15, 19, or 11 for the bounds.
fn ready_for(bytes: &[u8], rec: Record, text: &[u8], lay: Layout) -> Ready
    ensures { result ≡ ready bytes.now rec text.now lay }
{
    let permit = guard(
        record_fits(bytes.len(), rec),
        ok_place(lay.start, lay.stride, lay.scale),
    );
    match permit {
        Permit::Given => {
            let checked = check(text);
            match checked {
                Checked::Whole => {
                    let size = bounds_sized(rec.accel.maxbounds);
                    match size {
                        Sized::Dimensions(d) => Ready::Line(lay.scale * d.height),
                        Sized::Refused(r) => Ready::Refused(r),
                    }
                }
                Checked::Refused(r) => Ready::Refused(r),
            }
        }
        Permit::Refused(r) => Ready::Refused(r),
    }
}

// What `draw_string` answers with a buffer of `len` pixels, refusals, places and their order too: a dry
// run.
pub fn text_check(
    bytes: &[u8],
    rec: Record,
    mode: Mode,
    text: &[u8],
    len: usize,
    start: usize,
    wrap: Wrap,
    stride: usize,
    scale: usize,
) -> TextDrawn
    ensures { result ≡ draw_string bytes.now rec mode text.now len (record { start = start; wrap = wrap; stride = stride; scale = scale }) }
{
    let lay = Layout {
        start,
        wrap,
        stride,
        scale,
    };
    let ready = ready_for(bytes, rec, text, lay);
    match ready {
        Ready::Line(line) => {
            let other = stand_in(bytes, rec.codes, mode);
            // A pass takes a buffer; without ink it colours nothing there.
            let mut unused = [0; 1];
            text_pass(
                bytes,
                rec,
                mode,
                other,
                lay,
                line,
                len,
                &mut unused,
                text,
                false,
                0,
            )
        }
        Ready::Refused(r) => TextDrawn::Refused(r),
    }
}

// Draws a text from `start` on, and answers its height in pixels and how many rows of its glyphs were cut
// off at the buffer's end; 0 says that no row was. Each glyph is drawn where the pen stands, as
// `glyphs::draw_char` draws it, and moves the pen right by its width. A newline moves the pen to the next
// line; so does a glyph that would reach `wrap` pixels from the line's beginning, before it is drawn, at the
// beginning too, and by one line at most. A carriage return and a code without a glyph are skipped, and not
// counted; in default mode a code without a glyph is shown by that of the default code, and skipped only if
// that has none either. A glyph without a bitmap draws nothing, but wraps and moves the pen like any other.
//
// Refused, and then no pixel is coloured: 6 for a record that fails its test with these bytes, 15 for a
// start, stride or scale outside its limits (`outcome::ok_place`), both with place 0; 19 for a text over
// 65,535 bytes with place 0, and for one that is not UTF-8 with the first byte of the first ill-formed
// sequence; 11 with place 0 where the bounds' ascent or width is below 0, or their ascent + descent is not
// 0 to 32,767. Then the first character with a refusal decides, and the place is the byte where it starts:
// 10 for a glyph without metrics, 11 for metrics out of range, 13, 14 and 16 as `glyphs::draw_char`.
pub fn draw_string(
    bytes: &[u8],
    rec: Record,
    mode: Mode,
    text: &[u8],
    buf: &mut [u32],
    start: usize,
    wrap: Wrap,
    stride: usize,
    scale: usize,
    colour: u32,
) -> TextDrawn
    ensures value { result ≡ draw_string bytes.now rec mode text.now (length buf.old) (record { start = start; wrap = wrap; stride = stride; scale = scale }) }
    ensures buf_after { buf.new ≡ string_leaves bytes.now rec mode text.now (record { start = start; wrap = wrap; stride = stride; scale = scale }) colour result buf.old }
{
    let lay = Layout {
        start,
        wrap,
        stride,
        scale,
    };
    let ready = ready_for(bytes, rec, text, lay);
    match ready {
        Ready::Line(line) => {
            let len = buf.len();
            let other = stand_in(bytes, rec.codes, mode);
            let answer = text_pass(
                bytes, rec, mode, other, lay, line, len, &mut *buf, text, false, colour,
            );
            match answer {
                TextDrawn::Done(rows) => {
                    text_pass(
                        bytes, rec, mode, other, lay, line, len, &mut *buf, text, true, colour,
                    );
                    TextDrawn::Done(rows)
                }
                TextDrawn::Refused(r) => TextDrawn::Refused(r),
            }
        }
        Ready::Refused(r) => TextDrawn::Refused(r),
    }
}

// Where lines end, said in one number: nowhere, if every bit is set. No line gets so long.
pub fn wrap_of(number: u64) -> Wrap
    ensures { result ≡ wrap_of number }
{
    if number == 18446744073709551615 {
        return Wrap::Never;
    }
    Wrap::At(number)
}
