// Buffers whose pixels, or bytes, have known values before a call, and which of them changed. A buffer is looked
// at whole, and a call is lent its first part: the rest has to stay as it was.
ghost use Rattle.std.specs.Prelude.{◌≡◌};
ghost use Rattle.console.specs.Before.{before, Filled};

use std::fmt;

// The value before a call. Nothing is drawn in such a colour.
fn before(i: usize) -> u8
    ensures { result ≡ before i }
{
    100 + (i % 7) as u8
}

// Two loops of three lines: one generic loop would need a ghost value of each element for `Filled`, and be longer.
#[tactic(auto, using(crate::proofs::Filling::filling))]
pub fn fill_pixels(buf: &mut [u32])
    ensures { Filled buf.old buf.new }
{
    for i in 0..buf.len() {
        buf[i] = u32::from(before(i));
    }
}

#[tactic(auto, using(crate::proofs::Filling::filling))]
pub fn fill_bytes(buf: &mut [u8])
    ensures { Filled buf.old buf.new }
{
    for i in 0..buf.len() {
        buf[i] = before(i);
    }
}

// The places of a filled buffer that changed, printed as 0-2,4, and whether one of them has not this colour.
#[derive(Drop)]
pub struct Changed<'a, T> {
    pub buf: &'a [T],
    pub colour: u32,
}

impl<T: Copy + Into<u32>> Changed<'_, T> {
    // What stands in a place that changed.
    fn at(&self, i: usize) -> Option<u32> {
        let value = (*self.buf.get(i)?).into();
        (value != u32::from(before(i))).then_some(value)
    }

    fn is_changed(&self, i: usize) -> bool {
        self.at(i).is_some()
    }

    fn has_other_colour(&self, i: usize) -> bool {
        self.at(i).is_some_and(|value| value != self.colour)
    }
}

impl<T: Copy + Into<u32>> fmt::Display for Changed<'_, T> {
    // Of a run its first place is written, and its last one, if that is another.
    fn fmt<W: fmt::Write>(&self, f: &mut fmt::Formatter<W>) -> fmt::Result {
        let mut between = "";
        for i in 0..self.buf.len() {
            if !self.is_changed(i) {
                continue;
            }
            if i == 0 || !self.is_changed(i - 1) {
                write!(f, "{between}{i}")?;
                between = ",";
            } else if !self.is_changed(i + 1) {
                write!(f, "-{i}")?;
            }
        }
        if between.is_empty() {
            write!(f, "none")?;
        }
        if (0..self.buf.len()).any(|i| self.has_other_colour(i)) {
            write!(f, ", not all of the colour")?;
        }
        Ok(())
    }
}
