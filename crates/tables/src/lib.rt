// A font's record: what loading keeps of the six tables, as numbers beside the font's own bytes.
// Its structs bear 000's names. A record is plain data that a caller may have made up, so every call
// that takes one tests it first (`record_fits`).
//
// Each table is read by one function, from the place where it begins and the end of its bytes; bytes
// past the file's end read as 0. A place is a u32, as in the directory, so that no sum of a table's
// numbers leaves a usize. `big` in a part says that its numbers have the most significant byte first.
#![tactic(auto)]

mod accelerator_table;
mod bitmap_table;
mod code_table;
mod fits;
mod format;
mod measures;
mod metrics_table;
mod name_table;
mod property_table;

pub use accelerator_table::accelerators_at;
pub use bitmap_table::bitmaps_at;
pub use code_table::codes_at;
pub use fits::{guard, is_inside, record_fits};
pub use measures::{narrow_at, wide_at};
pub use metrics_table::{metric_bytes, metrics_at};
pub use name_table::names_at;
pub use property_table::properties_at;
use reads::Refusal;

// Table 1. `count` property records of 9 bytes from `records` on; string data of `size` bytes from
// `strings` on.
#[repr(C)]
#[derive(Clone, Copy)]
pub struct PropertiesData {
    pub big: bool,
    pub count: u32,
    pub records: usize,
    pub strings: usize,
    pub size: usize,
}

// A glyph's metrics, or the bounds of all glyphs, in pixels.
#[repr(C)]
#[derive(Clone, Copy)]
pub struct MetricsUnpacked {
    pub left: i16,
    pub right: i16,
    pub width: i16,
    pub ascent: i16,
    pub descent: i16,
    pub attributes: u16,
}

// Tables 2 and 256, as values: the record needs none of the table's bytes later.
#[repr(C)]
#[derive(Clone, Copy)]
pub struct AcceleratorUnpacked {
    pub format: u32,
    pub noOverlap: u8,
    pub constantMetrics: u8,
    pub terminalFont: u8,
    pub constantWidth: u8,
    pub inkInside: u8,
    pub inkMetrics: u8,
    pub drawDirection: u8,
    pub padding: u8,
    pub fontAscent: i32,
    pub fontDescent: i32,
    pub maxOverlap: i32,
    pub minbounds: MetricsUnpacked,
    pub maxbounds: MetricsUnpacked,
}

// Table 4. `count` records of 5 bytes (compressed) or 12 from `records` on.
#[repr(C)]
#[derive(Clone, Copy)]
pub struct MetricsData {
    pub big: bool,
    pub compressed: bool,
    pub count: u32,
    pub records: usize,
}

// Table 8. `count` offsets from `offsets` on, into the bitmap data of `size` bytes from `bits` on.
// A row is padded to a multiple of `pad` bytes. `unit` is the format's scan unit code, `big` also the byte
// order of a scan unit, `top` whether its top bit is its leftmost.
#[repr(C)]
#[derive(Clone, Copy)]
pub struct BitmapData {
    pub big: bool,
    pub count: u32,
    pub offsets: usize,
    pub bits: usize,
    pub size: usize,
    pub pad: u8,
    pub unit: u8,
    pub top: bool,
}

// Table 32. The bounds of a code's second and first byte, the default code, and the entries: `size`
// bytes from `entries` on.
#[repr(C)]
#[derive(Clone, Copy)]
pub struct EncodingData {
    pub big: bool,
    pub low2: u16,
    pub high2: u16,
    pub low1: u16,
    pub high1: u16,
    pub default: u16,
    pub entries: usize,
    pub size: usize,
}

// Table 128. `count` offsets from `offsets` on, into the string data of `size` bytes from `strings`.
#[repr(C)]
#[derive(Clone, Copy)]
pub struct GlyphNameData {
    pub big: bool,
    pub count: u32,
    pub offsets: usize,
    pub strings: usize,
    pub size: usize,
}

// The six parts. Offsets in them count from the start of the font's bytes.
#[repr(C)]
#[derive(Clone, Copy)]
pub struct Record {
    pub props: PropertiesData,
    pub accel: AcceleratorUnpacked,
    pub metrics: MetricsData,
    pub bitmaps: BitmapData,
    pub codes: EncodingData,
    pub names: GlyphNameData,
}

// What the tests before a drawing say: go on, or a refusal.
#[derive(Clone, Copy)]
pub enum Permit {
    Given,
    Refused(Refusal),
}

// What reading a table from its bytes gives: the table, or the refusal's number, 6 or 7. `Other` is
// a table of a type that is not read.
#[derive(Clone, Copy)]
pub enum TableRead {
    Properties(PropertiesData),
    Accelerators(AcceleratorUnpacked),
    Metrics(MetricsData),
    Bitmaps(BitmapData),
    Codes(EncodingData),
    Names(GlyphNameData),
    Other,
    Refused(u8),
}
