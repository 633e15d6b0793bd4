// A character at the start of its line: its code, and itself where it can be seen.
use console::{Code, seen};
use std::fmt;

// As `U+00E9 é` or `U+0020`.
#[derive(Clone, Copy)]
pub(crate) struct Character(pub(crate) u32);

impl fmt::Display for Character {
    fn fmt<W: fmt::Write>(&self, f: &mut fmt::Formatter<W>) -> fmt::Result {
        write!(f, "{}", Code(self.0))?;
        match seen(self.0) {
            Some(character) => write!(f, " {character}"),
            None => Ok(()),
        }
    }
}
