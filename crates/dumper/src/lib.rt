// The dump of a text: hexadecimal lines in, frames out on standard output.
#![tactic(auto)]

ghost use Rattle.std.specs.Prelude.{◌≡◌, ◌≤◌, length};
ghost use Rattle.vet.specs.Vet.{vetted};
ghost use Rattle.frames.specs.Dump.{vetted_number, dump_number};

use frames::{Printed, put_frame, put_refused};
use hexline::{HexRead, fill_bytes};
use lookup::code_range;
use reads::CharCode;
use tables::Record;
use vet::Vetted;

// Where a line is written: a frame of a font of 49,152 bytes has at most 196,642 characters.
type Room = [u8; 196642];

// The single line `refused NN`.
#[tactic(auto, using(crate::proofs::FramesFit::refusal_fits))]
fn print_refused(number: u8, out: &mut Room)
    requires { number ≤ 99 }
{
    match put_refused(number, out) {
        Printed::Bytes(n) => {
            io::write_all(1, &out[..n]);
        }
        Printed::Refused(_) => {
            unreachable!();
        }
    }
}

// A code's frame, nothing for a code without glyph, which is refused 9. In a font that passed there is no other
// refusal.
#[tactic(auto, using(crate::proofs::FramesFit::frame_fits))]
fn print_frame(font: &[u8], rec: Record, code: CharCode, out: &mut Room)
    requires font_value { vetted font.now ≡ Vetted.Passed rec }
    requires font_len_bound { length font.now ≤ 49152 }
{
    match put_frame(font, rec, code, out) {
        Printed::Bytes(n) => {
            io::write_all(1, &out[..n]);
        }
        Printed::Refused(r) => {
            if r.number != 9 {
                unreachable!();
            }
        }
    }
}

// The frames in the order of their codes. Only codes of the table's range are asked: no other has a
// glyph.
fn print_frames(font: &[u8], rec: Record, out: &mut Room)
    requires font_value { vetted font.now ≡ Vetted.Passed rec }
    requires font_len_bound { length font.now ≤ 49152 }
{
    let range = code_range(rec.codes);
    for code in range.low.0..range.end.0 {
        print_frame(font, rec, CharCode(code), out);
    }
}

// A font's frames, or the number that it is refused with; the answer is that number, or 0.
fn print_font(font: &[u8], out: &mut Room) -> u8
    requires { length font.now ≤ 49152 }
    ensures { result ≡ vetted_number (vetted font.now) }
{
    match vet::vet(font) {
        Vetted::Passed(rec) => {
            print_frames(font, rec, out);
            0
        }
        Vetted::Refused(r) => {
            print_refused(r.number, out);
            r.number
        }
    }
}

// The same of a text, with buffers that have room for any font and any frame.
#[tactic(auto, using(crate::proofs::TextRead::text_read))]
fn print_text(text: &[u8], font: &mut [u8; 49152], out: &mut Room) -> u8
    ensures { result ≡ dump_number text.now }
{
    match fill_bytes(text, font) {
        HexRead::Bytes(n) => print_font(&font[..n], out),
        HexRead::Refused(bad) => {
            print_refused(bad.number, out);
            bad.number
        }
    }
}

// Writes the dump of a font, given as lines of hexadecimal digits, to standard output: one frame a line
// for each code with a glyph, or the single line `refused NN`. Answers the number that it refused
// with, 0 where it printed frames: 20 for the lines, and then as `vet::vet` refuses.
pub fn print_dump(text: &[u8]) -> u8
    ensures { result ≡ dump_number text.now }
{
    let mut font = [0u8; 49152];
    let mut out = [0u8; 196642];
    print_text(text, &mut font, &mut out)
}
