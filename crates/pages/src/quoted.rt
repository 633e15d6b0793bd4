// A text as it would stand in the source.
use std::fmt;

#[derive(Drop)]
pub(crate) struct Quoted<'a>(pub(crate) &'a [u8]);

// A byte of it: \n, \r, itself, or \xc3.
impl fmt::Display for Quoted<'_> {
    fn fmt<W: fmt::Write>(&self, f: &mut fmt::Formatter<W>) -> fmt::Result {
        write!(f, "\"")?;
        for c in self.0 {
            match *c {
                b'\n' => write!(f, "\\n")?,
                b'\r' => write!(f, "\\r")?,
                c if c.is_ascii() => write!(f, "{}", char::from(c))?,
                c => write!(f, "\\x{c:02x}")?,
            }
        }
        write!(f, "\"")
    }
}
