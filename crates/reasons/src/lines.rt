// A line for each character: its code, the default code where that supplies the glyph, and the reason; and whether all
// are drawn whole.
use crate::asked::Request;
use crate::character::Character;
use crate::words::write_reason;
use console::{Characters, Refused};
use reads::CharCode;
use std::fmt;
use tables::Record;
use why::{Reason, Told, why};

// A code's line, and whether it is drawn whole.
pub(crate) fn write_code<W: fmt::Write>(
    f: &mut fmt::Formatter<W>,
    r: Request,
    font: &[u8],
    rec: Record,
    code: CharCode,
) -> Result<bool, fmt::Error> {
    let character = Character(code.0);
    match why(font, rec, r.mode, code, r.len, r.start, r.stride, r.scale) {
        Told::Because(reason, by) => {
            if by.is_default {
                let default = Character(by.code.0);
                write!(f, "{character}, by the default character {default}: ")?;
            } else {
                write!(f, "{character}: ")?;
            }
            write_reason(f, r, font, rec, by.code, reason)?;
            writeln!(f)?;
            Ok(matches!(reason, Reason::Drawn))
        }
        Told::Refused(no) => {
            writeln!(f, "{character}: {}", Refused(no))?;
            Ok(false)
        }
    }
}

// What is said of a text's character that is not looked up.
fn control(code: CharCode) -> Option<&'static str> {
    match code.0 {
        10 => Some("a newline, which begins a new line in a text and is not looked up"),
        13 => Some("a carriage return, which does nothing in a text and is not looked up"),
        _ => None,
    }
}

// Every character's line, and whether all that are looked up are drawn whole. The text is UTF-8 to its end.
pub(crate) fn write_text<W: fmt::Write>(
    f: &mut fmt::Formatter<W>,
    r: Request,
    text: &[u8],
    font: &[u8],
    rec: Record,
) -> Result<bool, fmt::Error> {
    let mut whole = true;
    for code in (Characters { text, at: 0 }) {
        match control(code) {
            Some(said) => writeln!(f, "{}: {said}", Character(code.0))?,
            None => whole &= write_code(f, r, font, rec, code)?,
        }
    }
    Ok(whole)
}
