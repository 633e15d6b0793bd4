// The glyph that shows a character, in the caller's mode. A caller that does more with it asks in two steps, `glyph_of`
// and then `or_stand_in` or `or_else`: each is small enough for the compiler to put into the caller, and a code with a
// glyph, which is nearly every code, then costs what it does in the plain mode. `or_stand_in` looks the default code up
// only where it is needed; `or_else` is for a text, which has asked before its first character.
ghost use Rattle.std.specs.Prelude.{◌≡◌};
ghost use Rattle.lookup.specs.Served.{itself, stand_in, or_else, served, get_glyph};
ghost use Rattle.lookup.specs.declared.Served.{Served};

use crate::{Found, Served, Supplier, glyph_of};
use modes::Mode;
use reads::{CharCode, GlyphIndex, Refusal};
use tables::{EncodingData, Record, record_fits};

// What shows a code without a glyph: in default mode the default code's own glyph; in the plain mode nothing does, 9.
pub fn stand_in(s: &[u8], codes: EncodingData, mode: Mode) -> Served
    ensures { result ≡ stand_in s.now codes mode }
{
    if mode.default {
        let code = CharCode(codes.default as u32);
        let found = glyph_of(s, codes, code);
        match found {
            Found::Glyph(g) => Served::Glyph(
                g,
                Supplier {
                    code,
                    is_default: true,
                },
            ),
            Found::Refused(r) => Served::Refused(r),
        }
    } else {
        Served::Refused(Refusal {
            number: 9,
            place: 0,
        })
    }
}

// A glyph that its own code supplied.
fn by_itself(g: GlyphIndex, code: CharCode) -> Served
    ensures { result ≡ Served.Glyph g (itself code.0) }
{
    Served::Glyph(
        g,
        Supplier {
            code,
            is_default: false,
        },
    )
}

// A code's own glyph, or else the other.
pub fn or_else(code: CharCode, own: Found, other: Served) -> Served
    ensures { result ≡ or_else code.0 own other }
{
    match own {
        Found::Glyph(g) => by_itself(g, code),
        Found::Refused(_) => other,
    }
}

// A code's own glyph, or else what stands in.
pub fn or_stand_in(s: &[u8], codes: EncodingData, mode: Mode, code: CharCode, own: Found) -> Served
    ensures { result ≡ or_else code.0 own (stand_in s.now codes mode) }
{
    match own {
        Found::Glyph(g) => by_itself(g, code),
        Found::Refused(_) => stand_in(s, codes, mode),
    }
}

// The glyph that shows a character in this mode, by this table, or 9. Bytes past the end read as 0.
pub fn serve(s: &[u8], codes: EncodingData, mode: Mode, code: CharCode) -> Served
    ensures { result ≡ served s.now codes mode code.0 }
{
    let own = glyph_of(s, codes, code);
    or_stand_in(s, codes, mode, code, own)
}

// The glyph that shows a character code, the code that supplied it, and whether that is the font's default code,
// standing in. In the plain mode it is the code's own glyph; in default mode a code without one takes the glyph of the
// default code, a code above 65,535 too. The default code itself is looked up plainly, and a code with a glyph of its
// own is never the default, not even the default code. Refused, both with place 0: 6 for a record that fails its test
// with these bytes (`tables::record_fits`), 9 where the font has no glyph for the code, as for any code above 65,535,
// and in default mode only where it has none for the default code either.
pub fn get_glyph(bytes: &[u8], rec: Record, mode: Mode, code: CharCode) -> Served
    ensures { result ≡ get_glyph bytes.now rec mode code.0 }
{
    if record_fits(bytes.len(), rec) {
        serve(bytes, rec.codes, mode, code)
    } else {
        Served::Refused(Refusal {
            number: 6,
            place: 0,
        })
    }
}
