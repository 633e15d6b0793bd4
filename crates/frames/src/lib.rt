// What the dump prints, written into a lent buffer: specs/Whole.antt says which code has a frame,
// specs/Frames.antt what a frame is, specs/Put.antt what writing one leaves, specs/Dump.antt the whole output.
#![tactic(auto)]

mod frame_line;
mod glyph_rows;
mod line;
mod whole;

ghost use Rattle.std.specs.Prelude.{◌≡◌, length};
ghost use Rattle.frames.specs.Put.{frame_into, frame_leaves, refused_into, refused_leaves};

use frame_line::put_line;
use line::Line;
use place::Prepared;
use reads::{CharCode, Refusal};
use tables::{Record, record_fits};
use whole::whole_glyph;

// How many bytes a line has, or why it was not written.
#[derive(Clone, Copy)]
pub enum Printed {
    Bytes(usize),
    Refused(Refusal),
}

// Writes the frame of a code at the start of `out`, its newline included, and answers how many bytes
// it has. Refused, all with place 0 and `out` as it was: 6 for a record that fails its test with these
// bytes (`tables::record_fits`); 9 for a code without a glyph; where the font did not pass vetting also
// 10 and 11 for the glyph's metrics, 12 for a glyph without a bitmap, 13 for a scan unit code other than
// 0, 1, 2 or a scan unit wider than the row pad, 14 where a byte that holds columns of a row lies beyond
// the bitmap data, 17 and 18 for its name; then 15 where `out` is shorter than the line.
#[tactic(auto, unfolding(crate::specs::Put::frame_into, crate::specs::Frames::frame_of))]
pub fn put_frame(bytes: &[u8], rec: Record, code: CharCode, out: &mut [u8]) -> Printed
    ensures value { result ≡ frame_into bytes.now rec code.0 (length out.old) }
    ensures out_after { out.new ≡ frame_leaves bytes.now rec code.0 result out.old }
{
    if record_fits(bytes.len(), rec) {
        let whole = whole_glyph(bytes, rec, code);
        match whole {
            Prepared::Info(i) => put_line(bytes, rec, code, i, out),
            Prepared::Refused(r) => Printed::Refused(r),
        }
    } else {
        Printed::Refused(Refusal {
            number: 6,
            place: 0,
        })
    }
}

// Writes the line `refused NN` of a refusal's number: 11 bytes with its newline, at the start of `out`.
// Refused: 15, with place 0 and `out` as it was, for a number above 99, and where `out` is shorter.
#[tactic(auto, using(crate::proofs::Lines::refused), unfolding(crate::specs::Put::refused_into))]
pub fn put_refused(number: u8, out: &mut [u8]) -> Printed
    ensures value { result ≡ refused_into number (length out.old) }
    ensures out_after { out.new ≡ refused_leaves number result out.old }
{
    if 99 < number {
        return Printed::Refused(Refusal {
            number: 15,
            place: 0,
        });
    }
    if out.len() < 11 {
        return Printed::Refused(Refusal {
            number: 15,
            place: 0,
        });
    }
    let mut line = Line::new(out);
    line.text(b"refused ");
    line.character(b'0' + number / 10);
    line.character(b'0' + number % 10);
    line.character(b'\n');
    Printed::Bytes(line.len())
}
