// The characters of a text that are not shown by a glyph of their own, but by the default code's, or skipped because
// the font lacks them: whoever copies a page has to know that a letter is missing.
ghost use Rattle.std.specs.Prelude.{◌≡◌};
ghost use Rattle.panel.specs.Served.{wants_glyph, lacked, by_default, CountsDefaults};

use console::{Characters, Code, seen};
use lookup::{Served, serve};
use modes::Mode;
use std::fmt;
use tables::EncodingData;

// Whether a character is looked up, as all are but newline and carriage return.
fn wants_glyph(code: u32) -> bool
    ensures { result ≡ wants_glyph code }
{
    (code != 10) & (code != 13)
}

// Whether a character is skipped because no glyph shows it.
fn lacked(code: u32, served: Served) -> bool
    ensures { result ≡ lacked code served }
{
    match served {
        Served::Glyph(_, _) => false,
        Served::Refused(_) => wants_glyph(code),
    }
}

// Whether the default code's glyph shows a character.
fn by_default(code: u32, served: Served) -> bool
    ensures { result ≡ by_default code served }
{
    match served {
        Served::Glyph(_, by) => by.is_default & wants_glyph(code),
        Served::Refused(_) => false,
    }
}

// How many characters of a text the default code shows.
fn default_count(text: &[u8], font: &[u8], codes: EncodingData, mode: Mode) -> usize
    ensures { CountsDefaults font.now codes mode text.now result }
{
    let mut n = 0;
    for code in (Characters { text, at: 0 }) {
        let counts = by_default(code.0, serve(font, codes, mode, code));
        n += counts as usize;
    }
    n
}

// A space, and the character or, where it would not be seen, its code. So there are as many spaces as characters.
fn write_name<W: fmt::Write>(f: &mut fmt::Formatter<W>, code: u32) -> fmt::Result {
    match seen(code) {
        Some(character) => write!(f, " {character}"),
        None => write!(f, " {}", Code(code)),
    }
}

// The names of the characters that are served so: each occurrence, in the text's order. The text was drawn, so it is
// UTF-8 to its end.
fn write_names<W: fmt::Write, F: Fn(u32, Served) -> bool + Drop>(
    f: &mut fmt::Formatter<W>,
    text: &[u8],
    font: &[u8],
    codes: EncodingData,
    mode: Mode,
    is_named: F,
) -> fmt::Result
    requires { F.IsAlwaysCallable is_named }
{
    for code in (Characters { text, at: 0 }) {
        if is_named(code.0, serve(font, codes, mode, code)) {
            write_name(f, code.0)?;
        }
    }
    Ok(())
}

// A line of those that the default code shows: how many there are, that code, and each; and a line of those skipped.
pub(crate) fn write_served<W: fmt::Write>(
    f: &mut fmt::Formatter<W>,
    text: &[u8],
    font: &[u8],
    codes: EncodingData,
    mode: Mode,
) -> fmt::Result {
    let count = default_count(text, font, codes, mode);
    write!(f, "default {count} {}", Code(codes.default as u32))?;
    write_names(f, text, font, codes, mode, by_default)?;
    write!(f, "\nskipped")?;
    write_names(f, text, font, codes, mode, lacked)?;
    writeln!(f)
}
