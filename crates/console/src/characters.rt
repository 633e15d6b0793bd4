// A text's characters, and how each is named.
ghost use Rattle.std.specs.Prelude.{◌≡◌, ◌-◌, length, false, SomeIff};
ghost use Rattle.std.specs.Char.{IsScalar};
ghost use Rattle.std.specs.Iterator.{at_most};
ghost use Rattle.console.specs.Unseen.{unseen};
ghost use Rattle.console.specs.Characters.{StepsOver};

use crate::codes::unseen;
use reads::CharCode;
use std::fmt;
use utf8::{Step, step_at};

// As U+00E9.
#[derive(Clone, Copy)]
pub struct Code(pub u32);

impl fmt::Display for Code {
    fn fmt<W: fmt::Write>(&self, f: &mut fmt::Formatter<W>) -> fmt::Result {
        write!(f, "U+{:04X}", self.0)
    }
}

// The character of a code, if there is one and it can be seen.
pub fn seen(code: u32) -> Option<char>
    ensures { SomeIff result ((unseen code ≡ false) × IsScalar code) code }
{
    if unseen(code) {
        return None;
    }
    char::from_u32(code)
}

// The characters of a text from a byte on, up to its end or to bytes that are not UTF-8.
#[derive(Clone, Copy)]
pub struct Characters<'a> {
    pub text: &'a [u8],
    pub at: usize,
}

impl<'a> Iterator for Characters<'a> {
    type Item = CharCode;

    ghost next_gives = { StepsOver };

    ghost remaining = { λ s. at_most (length s.text.now - s.at) };

    fn next(&mut self) -> Option<CharCode> {
        match step_at(self.text, self.at) {
            Step::Char(code, next) => {
                self.at = next;
                Some(code)
            }
            Step::End | Step::Refused(_) => None,
        }
    }
}
