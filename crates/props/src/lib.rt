// The property at a number: its name, and a value that is a number or a string.
#![tactic(auto)]

ghost use Rattle.std.specs.Prelude.{◌≡◌};
ghost use Rattle.props.specs.Props.{prop_string, prop_of, prop_at};

use names::{Named, Span, string_at};
use reads::{Refusal, byte_at, reach, u32_at};
use tables::{PropertiesData, Record, record_fits};

// A property's value: a number, or where a string stands in the font's bytes.
#[derive(Clone, Copy)]
pub enum PropValue {
    Number(u32),
    String(Span),
}

// A property: where its name stands in the font's bytes, and its value.
#[derive(Clone, Copy)]
pub struct Property {
    pub name: Span,
    pub value: PropValue,
}

// The property at a number.
#[derive(Clone, Copy)]
pub enum PropFound {
    Property(Property),
    Refused(Refusal),
}

fn prop_string(s: &[u8], p: PropertiesData, from: u32) -> Named
    ensures { result ≡ prop_string s.now p from }
{
    string_at(s, p.strings, p.size, from as usize)
}

// Property number `i` of this table, or 17, 18; 6 where the table's strings lie outside the bytes.
pub fn prop_of(s: &[u8], p: PropertiesData, i: u32) -> PropFound
    ensures { result ≡ prop_of s.now p i }
{
    if p.count <= i {
        return PropFound::Refused(Refusal {
            number: 17,
            place: 0,
        });
    }
    let at = reach(s.len(), p.records, 9 * (i as usize));
    let value = u32_at(s, at, 5, p.big);
    let named = prop_string(s, p, u32_at(s, at, 0, p.big));
    match named {
        Named::Name(name) => {
            if byte_at(s, at, 4) == 0 {
                return PropFound::Property(Property {
                    name,
                    value: PropValue::Number(value),
                });
            }
            let text = prop_string(s, p, value);
            match text {
                Named::Name(span) => PropFound::Property(Property {
                    name,
                    value: PropValue::String(span),
                }),
                Named::Refused(r) => PropFound::Refused(r),
            }
        }
        Named::Refused(r) => PropFound::Refused(r),
    }
}

// The property at a number, from 0 on: where its name stands in the font's bytes, and its value, a
// number or where the string stands. Refused, all with place 0: 6 for a record that fails its test
// with these bytes (`tables::record_fits`), 17 for a number at or above the count, 18 for a name, and
// after it a string value, that starts beyond the string data or has no zero byte there.
pub fn prop_at(bytes: &[u8], rec: Record, number: u32) -> PropFound
    ensures { result ≡ prop_at bytes.now rec number }
{
    if record_fits(bytes.len(), rec) {
        prop_of(bytes, rec.props, number)
    } else {
        PropFound::Refused(Refusal {
            number: 6,
            place: 0,
        })
    }
}
