// One step: the character at a place of a text.
ghost use Rattle.std.specs.Prelude.{◌≡◌, ◌+◌, ◌*◌, ◌%◌, ◌≤◌, ◌<◌, ◌^◌};
ghost use Rattle.utf8.specs.Table.{lead_of, continues};
ghost use Rattle.utf8.specs.Step.{ill_formed, longer, step_at};

use crate::{Lead, Step};
use reads::{CharCode, Refusal, byte_at};

// A line of the table: how many bytes a character takes, and the range of its second byte.
fn line(size: u8, low: u8, high: u8) -> Lead
    ensures { result ≡ record { size = size; low = low; high = high } }
{
    Lead { size, low, high }
}

// The table's line for a first byte.
fn lead_of(b: u8) -> Lead
    ensures { result ≡ lead_of b }
{
    if b < 0x80 {
        return line(1, 0, 0xFF);
    }
    if b < 0xC2 {
        return line(0, 0, 0);
    }
    if b < 0xE0 {
        return line(2, 0x80, 0xBF);
    }
    if b < 0xE1 {
        return line(3, 0xA0, 0xBF);
    }
    if b < 0xED {
        return line(3, 0x80, 0xBF);
    }
    if b < 0xEE {
        return line(3, 0x80, 0x9F);
    }
    if b < 0xF0 {
        return line(3, 0x80, 0xBF);
    }
    if b < 0xF1 {
        return line(4, 0x90, 0xBF);
    }
    if b < 0xF4 {
        return line(4, 0x80, 0xBF);
    }
    if b < 0xF5 {
        return line(4, 0x80, 0x8F);
    }
    line(0, 0, 0)
}

fn continues(b: u8) -> bool
    ensures { result ≡ continues b }
{
    (0x80 <= b) & (b <= 0xBF)
}

fn ill_formed(i: usize) -> Step
    ensures { result ≡ ill_formed i }
{
    Step::Refused(Refusal {
        number: 19,
        place: i,
    })
}

// A code with the six bits of one more byte.
fn six_more(code: u32, b: u8) -> u32
    requires { code ≤ 32767 }
    ensures { result ≡ code * 64 + b % 64 }
{
    code * 64 + (b % 64) as u32
}

// The character at i of n bytes, 2 to 4, of which the first two fit their line.
fn longer(i: usize, n: u8, b1: u8, b2: u8, b3: u8, b4: u8) -> Step
    requires { i < 2 ^ 63 }
    ensures { result ≡ longer i n b1 b2 b3 b4 }
{
    if n == 2 {
        let code = six_more((b1 % 32) as u32, b2);
        return Step::Char(CharCode(code), i + 2);
    }
    if !continues(b3) {
        return ill_formed(i);
    }
    if n == 3 {
        let code = six_more(six_more((b1 % 16) as u32, b2), b3);
        return Step::Char(CharCode(code), i + 3);
    }
    if !continues(b4) {
        return ill_formed(i);
    }
    let code = six_more(six_more(six_more((b1 % 8) as u32, b2), b3), b4);
    Step::Char(CharCode(code), i + 4)
}

// One step, by the table's line for the first byte.
pub(crate) fn any_step(text: &[u8], i: usize) -> Step
    ensures { result ≡ step_at text.now i }
{
    if text.len() <= i {
        return Step::End;
    }
    let b1 = text[i];
    let lead = lead_of(b1);
    let n = lead.size;
    let low = lead.low;
    let high = lead.high;
    if n == 0 {
        return ill_formed(i);
    }
    if n == 1 {
        return Step::Char(CharCode(b1 as u32), i + 1);
    }
    let b2 = byte_at(text, i, 1);
    if (low <= b2) & (b2 <= high) {
        return longer(i, n, b1, b2, byte_at(text, i, 2), byte_at(text, i, 3));
    }
    ill_formed(i)
}

// The character at byte i of a text and the place after it, or the end for an i at or past the text's
// length. Refused: 19 with place i where the bytes from i on begin with no well-formed sequence of
// Unicode's table.
pub fn step_at(text: &[u8], i: usize) -> Step
    ensures { result ≡ step_at text.now i }
{
    // Most texts are ASCII, and this is short enough to be compiled into the walk over one.
    if i < text.len() {
        let b = text[i];
        if b < 0x80 {
            return Step::Char(CharCode(b as u32), i + 1);
        }
    }
    any_step(text, i)
}
