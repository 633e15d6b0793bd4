// Why a character is not on the glass.
ghost use Rattle.std.specs.Prelude.{◌≡◌};
ghost use Rattle.why.specs.Why.{why_of};
ghost use Rattle.thalluskin.specs.Pages.{mode_in, place_of};
ghost use Rattle.thalluskin.specs.Reasons.{why_answer};

use crate::pages::stride_of;
use crate::placing::no_supplier;
use crate::{PageNumbers, WhyAnswer};
use modes::mode_of;
use reads::CharCode;
use tables::Record;
use why::{ReasonNumber, Told, reason_number, why};

// What naming the reason answered.
fn why_answer(told: Told) -> WhyAnswer
    ensures { result ≡ why_answer told }
{
    match told {
        Told::Because(reason, by) => WhyAnswer {
            refusal: 0,
            place: 0,
            reason: reason_number(reason),
            by,
        },
        Told::Refused(r) => WhyAnswer {
            refusal: r.number as u32,
            place: r.place,
            reason: ReasonNumber { number: 0, cut: 0 },
            by: no_supplier(),
        },
    }
}

// Why `thalluskin_draw_char` shows a character so in a buffer of `len` pixels, as `why::why` answers it. Refused, with
// place 0: 6, 15, an unknown mode too.
pub fn thalluskin_why(
    bytes: &[u8],
    rec: Record,
    code: CharCode,
    len: usize,
    page: PageNumbers,
) -> WhyAnswer
    ensures { result ≡ why_answer (why_of bytes.now rec (mode_in page) code.0 len (place_of page)) }
{
    why_answer(why(
        bytes,
        rec,
        mode_of(page.mode),
        code,
        len,
        page.start,
        stride_of(page),
        page.scale,
    ))
}
