// Texts: drawn, tried, and stepped through.
ghost use Rattle.std.specs.Prelude.{◌≡◌, length};
ghost use Rattle.text.specs.Text.{draw_string, string_leaves};
ghost use Rattle.utf8.specs.Step.{step_at};
ghost use Rattle.thalluskin.specs.Pages.{mode_in};
ghost use Rattle.thalluskin.specs.Texts.{layout_of, text_answer, step_answer};

use crate::pages::stride_of;
use crate::{PageNumbers, StepAnswer, TextAnswer};
use modes::mode_of;
use reads::CharCode;
use tables::Record;
use text::{TextDrawn, TextRows, draw_string, text_check, wrap_of};
use utf8::{Step, step_at};

// What drawing a text answered.
fn text_answer(drawn: TextDrawn) -> TextAnswer
    ensures { result ≡ text_answer drawn }
{
    match drawn {
        TextDrawn::Done(rows) => TextAnswer {
            refusal: 0,
            place: 0,
            rows,
        },
        TextDrawn::Refused(r) => TextAnswer {
            refusal: r.number as u32,
            place: r.place,
            rows: TextRows {
                height: 0,
                dropped: 0,
            },
        },
    }
}

// Draws a text, as `text::draw_string` does; `wrap` with every bit set is none. Refused, with no pixel coloured: 6, 15,
// an unknown mode too, 19, 11 of the bounds; then the first character with one decides, and the byte where it starts is
// the place: 10, 11, 13, 14, 16.
pub fn thalluskin_draw_string(
    bytes: &[u8],
    rec: Record,
    text: &[u8],
    buf: &mut [u32],
    page: PageNumbers,
) -> TextAnswer
    ensures value { result ≡ text_answer (draw_string bytes.now rec (mode_in page) text.now (length buf.old) (layout_of page)) }
    ensures buf_after { buf.new ≡ string_leaves bytes.now rec (mode_in page) text.now (layout_of page) page.colour (draw_string bytes.now rec (mode_in page) text.now (length buf.old) (layout_of page)) buf.old }
{
    text_answer(draw_string(
        bytes,
        rec,
        mode_of(page.mode),
        text,
        &mut *buf,
        page.start,
        wrap_of(page.wrap),
        stride_of(page),
        page.scale,
        page.colour,
    ))
}

// What `thalluskin_draw_string` answers with a buffer of `len` pixels: a dry run.
pub fn thalluskin_text_check(
    bytes: &[u8],
    rec: Record,
    text: &[u8],
    len: usize,
    page: PageNumbers,
) -> TextAnswer
    ensures { result ≡ text_answer (draw_string bytes.now rec (mode_in page) text.now len (layout_of page)) }
{
    text_answer(text_check(
        bytes,
        rec,
        mode_of(page.mode),
        text,
        len,
        page.start,
        wrap_of(page.wrap),
        stride_of(page),
        page.scale,
    ))
}

// The character at byte `i` and the place after it, or the end, as `utf8::step_at` answers it. Refused: 19, with `i` as
// the place.
pub fn thalluskin_utf8_step(text: &[u8], i: usize) -> StepAnswer
    ensures { result ≡ step_answer (step_at text.now i) }
{
    let answer = step_at(text, i);
    match answer {
        Step::Char(code, next) => StepAnswer {
            refusal: 0,
            place: 0,
            found: true,
            code,
            next,
        },
        Step::End => StepAnswer {
            refusal: 0,
            place: 0,
            found: false,
            code: CharCode(0),
            next: 0,
        },
        Step::Refused(r) => StepAnswer {
            refusal: r.number as u32,
            place: r.place,
            found: false,
            code: CharCode(0),
            next: 0,
        },
    }
}
