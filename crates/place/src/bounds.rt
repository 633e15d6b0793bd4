// The bounds of all glyphs, and the signed numbers that the tests of 11 need.
ghost use Rattle.std.specs.Prelude.{◌≡◌, true, T, nat_abs, ◌+ℤ◌};
ghost use Rattle.std.specs.Int.Signed.{non_neg};
ghost use Rattle.place.specs.Bounds.{height_of, in_range, bounds_hold, bounds_sized, dimensions};

use crate::{Extent, Sized};
use reads::Refusal;
use tables::{MetricsUnpacked, Record, record_fits};

pub(crate) fn is_natural(z: i16) -> bool
    ensures { result ≡ non_neg z }
{
    0 <= z
}

fn sum_of(a: i16, b: i16) -> i32
    ensures { result ≡ a +ℤ b }
{
    (a as i32) + (b as i32)
}

pub(crate) fn in_range(z: i32) -> bool
    ensures { result ≡ in_range z }
{
    (0 <= z) & (z <= 32767)
}

// Ascent and descent together.
pub(crate) fn height_of(m: MetricsUnpacked) -> i32
    ensures { result ≡ height_of m }
{
    sum_of(m.ascent, m.descent)
}

// Whether the bounds of all glyphs are in range; if not, `dimensions`, texts and vetting answer 11.
pub fn bounds_hold(m: MetricsUnpacked) -> bool
    ensures { result ≡ bounds_hold m }
{
    is_natural(m.ascent) & is_natural(m.width) & in_range(height_of(m))
}

pub(crate) fn natural_i16(z: i16) -> u16
    requires { T (non_neg z) }
    ensures { result ≡ nat_abs z }
{
    z as u16
}

pub(crate) fn natural_i32(z: i32) -> u16
    requires { in_range z ≡ true }
    ensures { result ≡ nat_abs z }
{
    z as u16
}

// The bounds' height and width, or 11.
pub fn bounds_sized(m: MetricsUnpacked) -> Sized
    ensures { result ≡ bounds_sized m }
{
    if bounds_hold(m) {
        let height = natural_i32(height_of(m)) as usize;
        let width = natural_i16(m.width) as usize;
        Sized::Dimensions(Extent { height, width })
    } else {
        Sized::Refused(Refusal {
            number: 11,
            place: 0,
        })
    }
}

// The maximum bounds' height and width. Refused, both with place 0: 6 for a record that fails its test
// with these bytes (`tables::record_fits`), 11 where the bounds' ascent or width is below 0, or their
// ascent + descent is not 0 to 32,767.
pub fn dimensions(bytes: &[u8], rec: Record) -> Sized
    ensures { result ≡ dimensions bytes.now rec }
{
    if record_fits(bytes.len(), rec) {
        bounds_sized(rec.accel.maxbounds)
    } else {
        Sized::Refused(Refusal {
            number: 6,
            place: 0,
        })
    }
}
