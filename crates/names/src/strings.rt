// Strings that end before their zero byte, looked for inside a table's string data.
ghost use Rattle.std.specs.Prelude.{◌≡◌, ◌+◌, ◌≤◌, length};
ghost use Rattle.names.specs.Strings.{zero_from, string_at, part_of, moved_by, part_at};

use crate::{Named, Span, Zero};
use reads::{Refusal, reach};
use tables::is_inside;

// How many of the `left` bytes from `at` on stand before the first zero byte.
fn find_end(s: &[u8], at: usize, left: usize) -> Zero
    requires { at + left ≤ length s.now }
    ensures { result ≡ zero_from s.now at left 0 }
{
    let mut k: usize = 0;
    while k < left {
        if s[at + k] == 0 {
            return Zero::After(k);
        }
        k += 1;
    }
    Zero::Nothing
}

// The string that starts `from` bytes into the string data, which is `size` bytes from `strings` on,
// up to its zero byte: 6 where the string data does not lie in the bytes, 18 where the string starts
// beyond it or has no zero byte there.
pub fn string_at(s: &[u8], strings: usize, size: usize, from: usize) -> Named
    ensures { result ≡ string_at s.now strings size from }
{
    if is_inside(s.len(), strings, size) {
        if size < from {
            return Named::Refused(Refusal {
                number: 18,
                place: 0,
            });
        }
        let start = strings + from;
        let end = find_end(s, start, size - from);
        match end {
            Zero::After(len) => Named::Name(Span { start, len }),
            Zero::Nothing => Named::Refused(Refusal {
                number: 18,
                place: 0,
            }),
        }
    } else {
        Named::Refused(Refusal {
            number: 6,
            place: 0,
        })
    }
}

// The bytes of a span, where they stand in the font's bytes; of a span that runs past the end those that there
// are, and of one that starts past it none, at the end.
pub fn part_of(bytes: &[u8], span: Span) -> &[u8]
    ensures result_value { result.now ≡ part_of bytes.now span }
    ensures ref_ptr_value { result.ref_ptr ≡ moved_by bytes.entry.ref_ptr (part_at bytes.now span) }
{
    let start = reach(bytes.len(), span.start, 0);
    let len = span.len;
    let rest = &bytes[start..];
    if rest.len() <= len {
        return rest;
    }
    &rest[..len]
}
