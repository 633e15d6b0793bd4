// An example: what a meter's firmware asks of the library. Standard input has a font file; the program says
// whether the caretaker may copy the page, once for a panel that is high enough and once for one that is not.
#![tactic(auto)]

use font::Reading;
use load::Loaded;
use lookup::Served;
use modes::plain;
use reads::CharCode;
use text::{TextDrawn, Wrap};

// Whether the bytes are a font that has a zero.
fn has_zero(file: &[u8]) -> bool {
    match load::load_pcf(file) {
        Loaded::Font(rec) => match lookup::get_glyph(file, rec, plain(), CharCode(0x30)) {
            Served::Glyph(_, _) => true,
            Served::Refused(_) => false,
        },
        Loaded::Refused(_) => false,
    }
}

// Shows a text on a panel 240 pixels wide, wrapped where a glyph would pass its right end: whether no row was
// cut. Where some were, the rest is shown all the same; where the font or the text is refused, the panel is as
// it was.
fn uncut(file: &[u8], text: &[u8], panel: &mut [u32]) -> bool {
    let drawn = font::show_string(
        file,
        Reading::Vetted,
        plain(),
        text,
        &mut *panel,
        0,
        Wrap::At(241),
        240,
        2,
        1,
    );
    match drawn {
        TextDrawn::Done(rows) => rows.dropped == 0,
        TextDrawn::Refused(_) => false,
    }
}

// By the kit's `io`, which a write that fails does not stop, and which stands on no more of the C library than `write`.
fn say(what: &str, yes: bool) {
    io::write_all(1, what.as_bytes());
    io::write_all(1, if yes { b"yes\n" } else { b"no\n" });
}

fn asked(file: &[u8]) {
    let text = b"12 345 kWh";
    let mut high = [0u32; 5760];
    let mut low = [0u32; 2880];
    say("has a zero: ", has_zero(file));
    say("to be copied from 24 rows: ", uncut(file, text, &mut high));
    say("to be copied from 12 rows: ", uncut(file, text, &mut low));
}

// Arrays, as a meter has no heap.
fn main() {
    let mut file = [0u8; 4096];
    let n = io::read_full(0, &mut file);
    asked(&file[..n]);
}
