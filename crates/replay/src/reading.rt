// The calls that read. An answer is its numbers, with no line end.
use crate::answers::{accelerated, glyph, loaded, measured, named, prop, sized};
use crate::asked::Asked;
use crate::calls::Reading;
use crate::shown::Shown;
use load::load_strict;
use lookup::Served;
use reads::CharCode;
use std::io;

// Strict loading takes no record: it is asked of a font that does not load too.
pub(crate) fn strict(rt: &impl Print, font: &[u8]) -> io::Result<()> {
    loaded(rt, load_strict(font))
}

impl Asked<'_> {
    // Whether the code has a glyph of its own.
    fn has_glyph(self, code: CharCode) -> bool {
        match lookup::get_glyph(self.font, self.rec, modes::plain(), code) {
            Served::Glyph(_, _) => true,
            Served::Refused(_) => false,
        }
    }

    // Of each code that a table can have.
    fn codes(self, rt: &impl Print) -> io::Result<()> {
        print!(rt; "have a glyph:")?;
        for code in 0..65536 {
            if self.has_glyph(CharCode(code)) {
                print!(rt; " {code}")?;
            }
        }
        Ok(())
    }

    fn name_bytes(self, rt: &impl Print) -> io::Result<()> {
        print!(rt; "\"")?;
        rt.write_all(names::name_bytes(self.font, self.rec, self.call.glyph()))?;
        print!(rt; "\"")
    }

    pub(crate) fn reading(self, rt: &impl Print, what: Reading) -> io::Result<()> {
        let Asked {
            font,
            rec,
            mode,
            call,
            ..
        } = self;
        match what {
            Reading::Record => print!(rt; "{}", Shown(rec)),
            Reading::Prop => prop(rt, props::prop_at(font, rec, call.number())),
            Reading::Glyph => glyph(rt, lookup::get_glyph(font, rec, mode, call.code())),
            Reading::Name => named(rt, names::get_name(font, rec, call.glyph())),
            Reading::Metrics => measured(rt, metrics::get_metrics(font, rec, call.glyph())),
            Reading::Dimensions => sized(rt, place::dimensions(font, rec)),
            Reading::Accelerators => accelerated(rt, metrics::get_accelerators(font, rec)),
            Reading::NameBytes => self.name_bytes(rt),
            Reading::Codes => self.codes(rt),
            Reading::Strict => strict(rt, font),
        }
    }
}
