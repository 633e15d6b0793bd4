// Vetting: in a font that passes, no code's glyph is ever refused for the font's sake.
#![tactic(auto)]

ghost use Rattle.std.specs.Prelude.{◌≡◌};
ghost use Rattle.place.specs.Info.{info_in};
ghost use Rattle.vet.specs.First.{first_fault};
ghost use Rattle.vet.specs.Vet.{prop_fault, box_fault, glyph_fault, code_fault, vet_record, vetted};

use bitmaps::{no_bitmap, rows_short, unreadable};
use load::{Loaded, load_in};
use lookup::{Found, code_range, glyph_of};
use names::{Named, name_of};
use place::{GlyphInfo, Prepared, bounds_hold, info_of};
use props::{PropFound, prop_of};
use reads::{CharCode, GlyphIndex, Refusal};
use tables::Record;

#[derive(Clone, Copy)]
pub enum Vetted {
    Passed(Record),
    Refused(Refusal),
}

// The first refusal of a range of numbers: the refusal's number, and the number that has it.
#[derive(Clone, Copy)]
pub enum First {
    Clear,
    At(u8, usize),
}

// A refusal's number for a property whose strings do not end, or 0.
fn prop_fault(s: &[u8], rec: Record, i: u32) -> u8
    ensures { result ≡ prop_fault s.now rec i }
{
    match prop_of(s, rec.props, i) {
        PropFound::Property(_) => 0,
        PropFound::Refused(r) => r.number,
    }
}

// The first property that has a refusal.
fn first_prop(s: &[u8], rec: Record) -> First
    ensures { result ≡ first_fault (prop_fault s.now rec) rec.props.count 0 }
{
    let count = rec.props.count;
    let mut i: u32 = 0;
    while i < count {
        let n = prop_fault(s, rec, i);
        if n != 0 {
            return First::At(n, i as usize);
        }
        i += 1;
    }
    First::Clear
}

// Of a placed glyph: 12, 14 over all rows, 17, 18, or 0.
fn box_fault(s: &[u8], rec: Record, i: GlyphInfo) -> u8
    ensures { result ≡ box_fault s.now rec i }
{
    let g = i.glyph;
    if no_bitmap(rec.bitmaps, g) {
        return 12;
    }
    if rows_short(s, rec.bitmaps, g, i.width, i.height) {
        return 14;
    }
    match name_of(s, rec.names, g) {
        Named::Name(_) => 0,
        Named::Refused(r) => r.number,
    }
}

// Of a glyph: 10, 11, then those.
fn glyph_fault(s: &[u8], rec: Record, g: GlyphIndex) -> u8
    ensures { result ≡ glyph_fault s.now rec (info_in s.now rec g) }
{
    match info_of(s, rec.metrics, rec.accel.maxbounds, g) {
        Prepared::Info(i) => box_fault(s, rec, i),
        Prepared::Refused(r) => r.number,
    }
}

// Of a code: those of its glyph, or 0 where it has none.
fn code_fault(s: &[u8], rec: Record, code: CharCode) -> u8
    ensures { result ≡ code_fault s.now rec code.0 }
{
    match glyph_of(s, rec.codes, code) {
        Found::Glyph(g) => glyph_fault(s, rec, g),
        Found::Refused(_) => 0,
    }
}

// The first code that has a refusal. Only codes of the table's range are asked: no other has a glyph.
fn first_code(s: &[u8], rec: Record) -> First
    ensures { result ≡ first_fault (code_fault s.now rec) 65536 0 }
{
    let range = code_range(rec.codes);
    let end = range.end.0;
    let mut code = range.low.0;
    while code < end {
        let n = code_fault(s, rec, CharCode(code));
        if n != 0 {
            return First::At(n, code as usize);
        }
        code += 1;
    }
    First::Clear
}

// The conditions on a record that loading gave, in document 01's order.
fn vet_record(s: &[u8], rec: Record) -> Vetted
    ensures { result ≡ vet_record s.now rec }
{
    if unreadable(rec.bitmaps) {
        return Vetted::Refused(Refusal {
            number: 13,
            place: 0,
        });
    }
    if bounds_hold(rec.accel.maxbounds) {
        match first_prop(s, rec) {
            First::At(number, place) => Vetted::Refused(Refusal { number, place }),
            First::Clear => match first_code(s, rec) {
                First::At(number, place) => Vetted::Refused(Refusal { number, place }),
                First::Clear => Vetted::Passed(rec),
            },
        }
    } else {
        Vetted::Refused(Refusal {
            number: 11,
            place: 0,
        })
    }
}

// The record of a font that passes: one that loads strictly, in which no property is refused, and of no code
// the glyph, its place, its rows or its name. Refused with the first trouble there is: 1 to 8 and 27 as
// `load::load_strict` refuses, with its place; 13 for a scan unit code other than 0, 1, 2, or a scan unit
// wider than the row pad, and 11 for bounds out of range, both with place 0; 18 for a property whose strings
// do not end, with its number; then code by code, from 0 to 65,535, with the code as the place and only where
// it has a glyph: 10 and 11 for its metrics, 12 and 14 for its bitmap, 17 and 18 for its name.
pub fn vet(bytes: &[u8]) -> Vetted
    ensures { result ≡ vetted bytes.now }
{
    match load_in(bytes, true) {
        Loaded::Font(rec) => vet_record(bytes, rec),
        Loaded::Refused(r) => Vetted::Refused(r),
    }
}
