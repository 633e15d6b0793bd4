// The calls on one font, a line each.
use crate::asked::Asked;
use crate::calls::{Call, Kind, Reading};
use crate::changes::changed;
use crate::reading::strict;
use console::Refused;
use load::{Loaded, load_pcf};
use reads::Refusal;
use std::io;
use tables::Record;

fn one_call<'a>(
    rt: &impl Print,
    font: &'a [u8],
    rec: Record,
    lent: &'a [u8],
    call: Call<'a>,
) -> io::Result<()> {
    if let Some(name) = call.name() {
        print!(rt; "{name:13}")?;
    }
    match call.mode() {
        Some(mode) => {
            let text = call.text_in(lent);
            let asked = Asked {
                font,
                rec,
                mode,
                call,
                text,
            };
            asked.answer(rt)?;
        }
        None => print!(rt; "no such mode")?,
    }
    println!(rt)
}

// A change holds for the next call that is none.
fn all_calls(
    rt: &impl Print,
    font: &[u8],
    rec: Record,
    lent: &[u8],
    calls: &[u8],
) -> io::Result<()> {
    let mut now = rec;
    for bytes in calls.chunks(Call::SIZE) {
        let call = Call(bytes);
        if let Kind::Change = call.kind() {
            now = changed(now, call);
        } else {
            one_call(rt, font, now, lent, call)?;
            now = rec;
        }
    }
    Ok(())
}

// Of a font that does not load no call is made but strict loading, where that is the first.
fn not_loaded(rt: &impl Print, font: &[u8], r: Refusal, calls: &[u8]) -> io::Result<()> {
    println!(rt; "{:13}{}", "load_pcf", Refused(r))?;
    if let Kind::Read(Reading::Strict) = Call(calls).kind() {
        print!(rt; "{:13}", "load_strict")?;
        strict(rt, font)?;
        println!(rt)?;
    }
    Ok(())
}

// `lent` is the font's bytes and the texts after them.
pub(crate) fn font_calls(
    rt: &impl Print,
    font: &[u8],
    lent: &[u8],
    calls: &[u8],
) -> io::Result<()> {
    println!(rt; "font of {} bytes", font.len())?;
    match load_pcf(font) {
        Loaded::Font(rec) => all_calls(rt, font, rec, lent, calls),
        Loaded::Refused(r) => not_loaded(rt, font, r, calls),
    }
}
