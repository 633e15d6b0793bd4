// Answers in words, with no line end.
use crate::shown::Shown;
use bitmaps::{Drawn, Unpacked};
use console::Refused;
use frames::Printed;
use glyphs::CharDrawn;
use hexline::HexRead;
use load::Loaded;
use lookup::Served;
use metrics::{Accelerated, Measured};
use names::Named;
use place::{CharPrepared, Sized};
use props::PropFound;
use std::io;
use text::TextDrawn;
use utf8::{Checked, Step};
use why::{Told, reason_number};

pub(crate) fn drawn(rt: &impl Print, answer: Drawn) -> io::Result<()> {
    match answer {
        Drawn::Rows(rows) => print!(rt; "{}", Shown(rows)),
        Drawn::Refused(r) => print!(rt; "{}", Refused(r)),
    }
}

pub(crate) fn char_drawn(rt: &impl Print, answer: CharDrawn) -> io::Result<()> {
    match answer {
        CharDrawn::Glyph(info, rows, by) => {
            print!(rt; "{}, {}, {}", Shown(info), Shown(rows), Shown(by))
        }
        CharDrawn::Refused(r) => print!(rt; "{}", Refused(r)),
    }
}

pub(crate) fn because(rt: &impl Print, answer: Told) -> io::Result<()> {
    match answer {
        Told::Because(reason, by) => {
            let told = reason_number(reason);
            print!(rt; "{}, cut {}, {}", told.number, told.cut, Shown(by))
        }
        Told::Refused(r) => print!(rt; "{}", Refused(r)),
    }
}

pub(crate) fn unpacked(rt: &impl Print, answer: Unpacked) -> io::Result<()> {
    match answer {
        Unpacked::Rows(n) => print!(rt; "rows {n}"),
        Unpacked::Refused(r) => print!(rt; "{}", Refused(r)),
    }
}

pub(crate) fn text_drawn(rt: &impl Print, answer: TextDrawn) -> io::Result<()> {
    match answer {
        TextDrawn::Done(rows) => print!(rt; "height {}, dropped {}", rows.height, rows.dropped),
        TextDrawn::Refused(r) => print!(rt; "{}", Refused(r)),
    }
}

pub(crate) fn stepped(rt: &impl Print, answer: Step) -> io::Result<()> {
    match answer {
        Step::Char(code, next) => print!(rt; "code {}, next {next}", code.0),
        Step::End => print!(rt; "end"),
        Step::Refused(r) => print!(rt; "{}", Refused(r)),
    }
}

pub(crate) fn checked(rt: &impl Print, answer: Checked) -> io::Result<()> {
    match answer {
        Checked::Whole => print!(rt; "whole"),
        Checked::Refused(r) => print!(rt; "{}", Refused(r)),
    }
}

pub(crate) fn prepared(rt: &impl Print, answer: CharPrepared) -> io::Result<()> {
    match answer {
        CharPrepared::Info(info, by) => print!(rt; "{}, {}", Shown(info), Shown(by)),
        CharPrepared::Refused(r) => print!(rt; "{}", Refused(r)),
    }
}

pub(crate) fn loaded(rt: &impl Print, answer: Loaded) -> io::Result<()> {
    match answer {
        Loaded::Font(rec) => print!(rt; "{}", Shown(rec)),
        Loaded::Refused(r) => print!(rt; "{}", Refused(r)),
    }
}

pub(crate) fn prop(rt: &impl Print, answer: PropFound) -> io::Result<()> {
    match answer {
        PropFound::Property(p) => print!(rt; "{}", Shown(p)),
        PropFound::Refused(r) => print!(rt; "{}", Refused(r)),
    }
}

pub(crate) fn glyph(rt: &impl Print, answer: Served) -> io::Result<()> {
    match answer {
        Served::Glyph(g, by) => print!(rt; "{} {} {}", g.0, by.code.0, Shown(by.is_default)),
        Served::Refused(r) => print!(rt; "{}", Refused(r)),
    }
}

pub(crate) fn named(rt: &impl Print, answer: Named) -> io::Result<()> {
    match answer {
        Named::Name(s) => print!(rt; "{}", Shown(s)),
        Named::Refused(r) => print!(rt; "{}", Refused(r)),
    }
}

pub(crate) fn measured(rt: &impl Print, answer: Measured) -> io::Result<()> {
    match answer {
        Measured::Metrics(m) => print!(rt; "{}", Shown(m)),
        Measured::Refused(r) => print!(rt; "{}", Refused(r)),
    }
}

pub(crate) fn accelerated(rt: &impl Print, answer: Accelerated) -> io::Result<()> {
    match answer {
        Accelerated::Accelerators(a) => print!(rt; "{}", Shown(a)),
        Accelerated::Refused(r) => print!(rt; "{}", Refused(r)),
    }
}

pub(crate) fn sized(rt: &impl Print, answer: Sized) -> io::Result<()> {
    match answer {
        Sized::Dimensions(d) => print!(rt; "{}", Shown(d)),
        Sized::Refused(r) => print!(rt; "{}", Refused(r)),
    }
}

pub(crate) fn printed(rt: &impl Print, answer: Printed) -> io::Result<()> {
    match answer {
        Printed::Bytes(n) => print!(rt; "bytes {n}"),
        Printed::Refused(r) => print!(rt; "{}", Refused(r)),
    }
}

pub(crate) fn filled(rt: &impl Print, answer: HexRead) -> io::Result<()> {
    match answer {
        HexRead::Bytes(n) => print!(rt; "bytes {n}"),
        HexRead::Refused(r) => print!(rt; "{}", Refused(r)),
    }
}
