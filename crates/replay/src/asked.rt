// A call on a font, and what it is answered: bytes, record, mode, and the text that the call has.
use crate::answers::{checked, prepared, stepped};
use crate::calls::{Call, Kind};
use modes::Mode;
use std::io;
use tables::Record;

#[derive(Clone, Copy)]
pub(crate) struct Asked<'a> {
    pub(crate) font: &'a [u8],
    pub(crate) rec: Record,
    pub(crate) mode: Mode,
    pub(crate) call: Call<'a>,
    pub(crate) text: &'a [u8],
}

impl Asked<'_> {
    pub(crate) fn answer(self, rt: &impl Print) -> io::Result<()> {
        match self.call.kind() {
            // A change asks for nothing.
            Kind::Change => Ok(()),
            Kind::Draw(how) => self.drawing(rt, how),
            Kind::Unpack => self.unpacking(rt),
            Kind::Prep => prepared(
                rt,
                place::prep_char(self.font, self.rec, self.mode, self.call.code()),
            ),
            Kind::Step => stepped(rt, utf8::step_at(self.text, self.call.start())),
            Kind::Read(what) => self.reading(rt, what),
            Kind::Check => checked(rt, utf8::check(self.text)),
            Kind::Put(what) => self.putting(rt, what),
        }
    }
}
