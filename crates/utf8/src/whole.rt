// A whole text.
ghost use Rattle.std.specs.Prelude.{◌≡◌};
ghost use Rattle.utf8.specs.Decode.{decoded, checked, checked_text};

use crate::stepping::any_step;
use crate::{Checked, Step};
use reads::Refusal;

// Whether the steps over a text, of any length, come to its end, or where they do not.
fn walk(text: &[u8]) -> Checked
    ensures { result ≡ checked (decoded text.now) }
{
    let mut i: usize = 0;
    loop {
        let here = any_step(text, i);
        match here {
            Step::Char(code, next) => {
                i = next;
            }
            Step::End => {
                return Checked::Whole;
            }
            Step::Refused(r) => {
                return Checked::Refused(r);
            }
        }
    }
}

// Whether a text can be drawn as far as its bytes go: at most 65,535 of them, and UTF-8. Refused: 19, with
// place 0 for a longer text, and else with the first byte of the first ill-formed sequence.
pub fn check(text: &[u8]) -> Checked
    ensures { result ≡ checked_text text.now }
{
    if 65535 < text.len() {
        return Checked::Refused(Refusal {
            number: 19,
            place: 0,
        });
    }
    walk(text)
}
