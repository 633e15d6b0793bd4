// The line of a placed glyph.
ghost use Rattle.std.specs.Prelude.{◌≡◌, true, ◌+◌, ◌≤◌, ◌<◌, length};
ghost use Rattle.tables.specs.Fits.{record_fits};
ghost use Rattle.names.specs.Names.{name_of, name_bytes};
ghost use Rattle.frames.specs.Frames.{frame};
ghost use Rattle.frames.specs.Put.{line_into, line_leaves};
ghost use Rattle.frames.specs.Wrote.{Wrote};

use crate::Printed;
use crate::glyph_rows::{put_picture, rows_size};
use crate::line::{Line, field_size};
use names::name_bytes;
use place::GlyphInfo;
use reads::{CharCode, Refusal};
use tables::Record;

// The eight fields of the line, of a glyph with this name.
#[tactic(auto, using(crate::proofs::Lines::sizes))]
fn put_fields(s: &[u8], rec: Record, code: CharCode, i: GlyphInfo, name: &[u8], line: &mut Line<'_>)
    requires name_value { name.now ≡ name_bytes s.now (name_of s.now rec.names i.glyph.0) }
    requires i_in_bounds { line.old.at + length (frame s.now rec code.0 i) ≤ length line.old.out.now }
    requires code_bound { code.0 < 65536 }
    ensures { Wrote line.old.out line.old.at (frame s.now rec code.0 i) line.new.out line.new.at }
{
    line.number(code.0 as u16);
    line.number(i.glyph.0);
    line.number(i.width);
    line.number(i.height);
    line.number(i.pad_top);
    line.number(i.pad_left);
    line.field(name);
    line.character(b' ');
    put_picture(s, rec.bitmaps, i, line);
    line.character(b'\n');
}

// The line of a placed glyph, where the buffer has room for it. The length is computed before a byte
// is written; a name of which half the buffer would not hold the bytes is too long in any case, and
// for any other the sum fits.
pub(crate) fn put_line(
    s: &[u8],
    rec: Record,
    code: CharCode,
    i: GlyphInfo,
    out: &mut [u8],
) -> Printed
    requires rec_value { record_fits (length s.now) rec ≡ true }
    requires code_bound { code.0 < 65536 }
    ensures value { result ≡ line_into (frame s.now rec code.0 i) (length out.old) }
    ensures out_after { out.new ≡ line_leaves (frame s.now rec code.0 i) result out.old }
{
    let name = name_bytes(s, rec, i.glyph);
    if out.len() / 2 < name.len() {
        return Printed::Refused(Refusal {
            number: 15,
            place: 0,
        });
    }
    let fields = field_size(name.len()) + field_size(rows_size(i.width, i.height));
    if out.len() < 32 + fields {
        return Printed::Refused(Refusal {
            number: 15,
            place: 0,
        });
    }
    let mut line = Line::new(out);
    put_fields(s, rec, code, i, name, &mut line);
    Printed::Bytes(line.len())
}
