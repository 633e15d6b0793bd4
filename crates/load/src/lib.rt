// Loading: the directory and the tables it names, to a record or a refusal: 1 to 8, and in strict loading 27.
#![tactic(auto)]

mod blanks;
mod gather;

ghost use Rattle.std.specs.Prelude.{◌≡◌, ◌&&◌, ◌≤◌, ◌<◌, min};
ghost use Rattle.load.specs.Gather.{nothing};
ghost use Rattle.load.specs.Load.{table_at, known_type, format_differs, table_in, entry_of, entry_at, entries_from, loaded_in, loaded, loaded_strictly};

use crate::gather::{add, finish, nothing_yet};
pub use blanks::{blank, no_metrics};
use reads::{Refusal, u32_at};
use tables::{
    Record, TableRead, accelerators_at, bitmaps_at, codes_at, metrics_at, names_at, properties_at,
};

// What loading a file gives: the font's record, to be used with the same bytes.
#[derive(Clone, Copy)]
pub enum Loaded {
    Font(Record),
    Refused(Refusal),
}

// Which of the six kinds of table the directory has given so far.
#[derive(Clone, Copy)]
pub struct Kinds {
    pub props: bool,
    pub accel: bool,
    pub metrics: bool,
    pub bitmaps: bool,
    pub codes: bool,
    pub names: bool,
}

// What the directory has given so far: the last table of each kind, and which kinds there were.
#[derive(Clone, Copy)]
pub struct Gathered {
    pub tables: Record,
    pub kinds: Kinds,
}

// What the walk has after one more entry, or that entry's refusal number.
#[derive(Clone, Copy)]
pub enum Entered {
    Next(Gathered),
    Refused(u8),
}

fn lesser_of(a: usize, b: usize) -> usize
    ensures { result ≡ min a b }
{
    if a <= b { a } else { b }
}

// The table of an entry of this type, whose bytes run from `at` to `end`; `format` is the
// directory's.
fn table_at(s: &[u8], kind: u32, format: u32, at: u32, end: usize) -> TableRead
    ensures { result ≡ table_at s.now kind format at end }
{
    if kind == 1 {
        return properties_at(s, at, end);
    }
    if kind == 2 {
        return accelerators_at(s, at, end);
    }
    if kind == 256 {
        return accelerators_at(s, at, end);
    }
    if kind == 4 {
        return metrics_at(s, format, at, end);
    }
    if kind == 8 {
        return bitmaps_at(s, at, end);
    }
    if kind == 32 {
        return codes_at(s, at, end);
    }
    if kind == 128 {
        return names_at(s, at, end);
    }
    TableRead::Other
}

// A type that is read.
fn known_type(kind: u32) -> bool
    ensures { result ≡ known_type kind }
{
    (kind == 1)
        | (kind == 2)
        | (kind == 4)
        | (kind == 8)
        | (kind == 32)
        | (kind == 128)
        | (kind == 256)
}

// Whether `strict` asks for a known table's own format word, its four bytes are there, and it is not the
// directory's. Asked first, so that the tolerant load reads no word for it.
fn format_refused(s: &[u8], strict: bool, kind: u32, format: u32, at: u32, end: usize) -> bool
    ensures { result ≡ (strict && format_differs s.now kind format at end) }
{
    if strict {
        let own = u32_at(s, at as usize, 0, false);
        return known_type(kind) & (at as usize + 4 <= end) & (own != format);
    }
    false
}

// The table of an entry, in strict loading or not: 27 where its format is refused, before its own tests.
fn table_in(s: &[u8], strict: bool, kind: u32, format: u32, at: u32, end: usize) -> TableRead
    ensures { result ≡ table_in strict s.now kind format at end }
{
    if format_refused(s, strict, kind, format, at, end) {
        return TableRead::Refused(27);
    }
    table_at(s, kind, format, at, end)
}

// An entry's numbers: 5 for an offset past the file; else its table, cut at the file's end.
fn entry_of(
    s: &[u8],
    strict: bool,
    g: Gathered,
    kind: u32,
    format: u32,
    size: u32,
    offset: u32,
) -> Entered
    ensures { result ≡ entry_of strict s.now g kind format size offset }
{
    if s.len() < offset as usize {
        return Entered::Refused(5);
    }
    let end = lesser_of(offset as usize + size as usize, s.len());
    add(g, table_in(s, strict, kind, format, offset, end))
}

// What entry number `k` makes of what the directory has given before it.
fn entry_at(s: &[u8], strict: bool, k: usize, g: Gathered) -> Entered
    requires { k < 64 }
    ensures { result ≡ entry_at strict s.now k g }
{
    let at = 8 + 16 * k;
    let kind = u32_at(s, at, 0, false);
    let format = u32_at(s, at, 4, false);
    let size = u32_at(s, at, 8, false);
    let offset = u32_at(s, at, 12, false);
    entry_of(s, strict, g, kind, format, size, offset)
}

// All entries, in order: the first refusal with its entry's number, or what they give together.
fn all_entries(s: &[u8], strict: bool, count: usize) -> Loaded
    requires { count ≤ 64 }
    ensures { result ≡ entries_from strict s.now count 0 nothing }
{
    let mut g = nothing_yet();
    let mut k: usize = 0;
    while k < count {
        match entry_at(s, strict, k, g) {
            Entered::Next(h) => {
                g = h;
            }
            Entered::Refused(number) => {
                return Loaded::Refused(Refusal { number, place: k });
            }
        }
        k += 1;
    }
    finish(g)
}

// `load_strict` where `strict` is asked, else `load_pcf`, with their refusals: for the crates above, which
// would copy the record once more through either.
pub fn load_in(bytes: &[u8], strict: bool) -> Loaded
    ensures { result ≡ loaded_in strict bytes.now }
{
    if bytes.len() < 8 {
        return Loaded::Refused(Refusal {
            number: 1,
            place: 0,
        });
    }
    if u32_at(bytes, 0, 0, true) != 0x0166_6370 {
        return Loaded::Refused(Refusal {
            number: 2,
            place: 0,
        });
    }
    let count = u32_at(bytes, 0, 4, false) as usize;
    if 64 < count {
        return Loaded::Refused(Refusal {
            number: 3,
            place: 0,
        });
    }
    if bytes.len() < 8 + 16 * count {
        return Loaded::Refused(Refusal {
            number: 4,
            place: 0,
        });
    }
    all_entries(bytes, strict, count)
}

// The record of a font file. Refused with the first of these: 1 under 8 bytes; 2 first four bytes not
// 01 66 63 70; 3 over 64 directory entries; 4 a directory that runs past the file; then entry by
// entry, with the entry's number from 0 as the place, 5 an offset past the file, 6 a known table that
// runs past its bytes (in a code table 6 for its 14 bytes of header, 7 for a minimum above its
// maximum, then 6 for its entries); then 8 a kind of table missing. The place is 0 but for 5, 6, 7.
// That a table's own format is its directory entry's is not asked.
pub fn load_pcf(bytes: &[u8]) -> Loaded
    ensures { result ≡ loaded bytes.now }
{
    load_in(bytes, false)
}

// The record that `load_pcf` gives, of a font file in which each known table begins with the format word of
// its directory entry, in all 32 bits. Known are types 1, 2, 4, 8, 32, 128 and 256, each time where one is
// repeated. Refused as `load_pcf` is, and 27 where the two words differ, with the entry's number as the
// place: after 5, and after 6 for the four bytes of the table's own word, before every other test of that
// table.
pub fn load_strict(bytes: &[u8]) -> Loaded
    ensures { result ≡ loaded_strictly bytes.now }
{
    load_in(bytes, true)
}
