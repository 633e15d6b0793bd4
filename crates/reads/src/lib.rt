// What every other crate speaks of: the two kinds of number that must not be mixed up, the refusal,
// and the numbers in a font's bytes.
//
// Every read has a start and an offset from it, and reads at their whole sum: it answers 0 where the
// number does not lie in the bytes, for any start and any offset (specs/Num.antt).
#![tactic(auto)]

ghost use Rattle.std.specs.Prelude.{◌≡◌, ◌+◌, ◌≤◌, ◌<◌, ◌^◌, min, length, leb};
ghost use Rattle.reads.specs.Num.{byte_at, digit_at, digits, num_at, u16_at, u32_at, i16_at, i32_at, less128};

// A character code. Never a glyph index: the two are different types.
#[repr(C)]
#[derive(Clone, Copy)]
pub struct CharCode(pub u32);

// The number of a glyph in a font's tables.
#[repr(C)]
#[derive(Clone, Copy)]
pub struct GlyphIndex(pub u16);

// Why a call has no result: the refusal's number, 1 to 20, and where, by the rule for that number.
#[repr(C)]
#[derive(Clone, Copy)]
pub struct Refusal {
    pub number: u8,
    pub place: usize,
}

fn wide(x: u8) -> u32
    ensures { (result ≡ x) × (result < 256) }
{
    x as u32
}

// The k-th most significant, from 0, of the `width` bytes at `at`.
fn digit_at(s: &[u8], at: usize, width: usize, big: bool, k: usize) -> u32
    requires k_lt_width { k < width }
    requires width_in_bounds { at + width ≤ length s.now }
    ensures value { result ≡ digit_at big width s.now at k }
    ensures upper_bound { result < 256 }
{
    if big {
        wide(s[at + k])
    } else {
        wide(s[at + (width - 1 - k)])
    }
}

// The number of `width` bytes that lie in the bytes: the one loop, and the one proof, for every
// width and both orders.
fn digits_at(s: &[u8], at: usize, width: usize, big: bool) -> u32
    requires width_bound { width ≤ 4 }
    requires width_in_bounds { at + width ≤ length s.now }
    ensures value { result ≡ digits (digit_at big width s.now at) width }
    ensures upper_bound { result < 256 ^ width }
{
    let mut n: u32 = 0;
    let mut i: usize = 0;
    while i < width {
        n = n * 256 + digit_at(s, at, width, big, i);
        i += 1;
    }
    n
}

// Whether `size` bytes lie in `len`, from `offset` bytes after `start` on. By subtraction, so that no
// sum is formed that might not fit; the size first, which is a number that the compiler knows.
pub fn lies_in(len: usize, start: usize, offset: usize, size: usize) -> bool
    ensures { result ≡ leb (start + offset + size) len }
{
    if len < start {
        return false;
    }
    if len - start < size {
        return false;
    }
    offset <= len - start - size
}

// The number of `width` bytes, `offset` bytes after `start`; 0 where they do not all lie in the
// bytes. This makes every read total.
fn number_at(s: &[u8], start: usize, offset: usize, width: usize, big: bool) -> u32
    requires { width ≤ 4 }
    ensures value { result ≡ num_at big width s.now (start + offset) }
    ensures upper_bound { result < 256 ^ width }
{
    if lies_in(s.len(), start, offset, width) {
        digits_at(s, start + offset, width, big)
    } else {
        0
    }
}

// The byte `offset` bytes after `start`; 0 where it does not lie in the bytes.
pub fn byte_at(s: &[u8], start: usize, offset: usize) -> u8
    ensures { result ≡ byte_at s.now (start + offset) }
{
    number_at(s, start, offset, 1, false) as u8
}

// The number of the two bytes `offset` bytes after `start`, most significant first where `big`; 0
// where they do not both lie in the bytes.
pub fn u16_at(s: &[u8], start: usize, offset: usize, big: bool) -> u16
    ensures { result ≡ u16_at big s.now (start + offset) }
{
    number_at(s, start, offset, 2, big) as u16
}

// The number of the four bytes `offset` bytes after `start`, most significant first where `big`; 0
// where they do not all lie in the bytes.
pub fn u32_at(s: &[u8], start: usize, offset: usize, big: bool) -> u32
    ensures { result ≡ u32_at big s.now (start + offset) }
{
    number_at(s, start, offset, 4, big)
}

// As `u16_at`, and from half of all numbers on counted from below 0.
pub fn i16_at(s: &[u8], start: usize, offset: usize, big: bool) -> i16
    ensures { result ≡ i16_at big s.now (start + offset) }
{
    let n = number_at(s, start, offset, 2, big);
    if n < 32768 {
        n as i16
    } else {
        let d = (65535 - n) as i16;
        -1 - d
    }
}

// As `u32_at`, and from half of all numbers on counted from below 0.
pub fn i32_at(s: &[u8], start: usize, offset: usize, big: bool) -> i32
    ensures { result ≡ i32_at big s.now (start + offset) }
{
    let n = number_at(s, start, offset, 4, big);
    if n < 2147483648 {
        n as i32
    } else {
        let d = (4294967295 - n) as i32;
        -1 - d
    }
}

// A compressed metric: the byte b means b - 128.
pub fn metric_of(b: u8) -> i16
    ensures { result ≡ less128 b }
{
    (b as i16) - 128
}

// The place `offset` bytes after `start`, cut at `len`: past the end every read is 0, so that in a
// read the cut does not show.
pub fn reach(len: usize, start: usize, offset: usize) -> usize
    ensures { result ≡ min (start + offset) len }
{
    if lies_in(len, start, offset, 0) {
        start + offset
    } else {
        len
    }
}
