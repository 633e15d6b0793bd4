// The calls that put bytes into a buffer: how many, or the refusal, and the whole buffer as it is then. A call is lent
// its first part; letters stand in it before.
use crate::answers::{filled, printed};
use crate::asked::Asked;
use crate::calls::Putting;
use console::fill_bytes;
use std::io;

impl Asked<'_> {
    fn put(self, rt: &impl Print, what: Putting, out: &mut [u8]) -> io::Result<()> {
        let Asked {
            font,
            rec,
            call,
            text,
            ..
        } = self;
        match what {
            Putting::Frame => printed(rt, frames::put_frame(font, rec, call.code(), out)),
            Putting::Refused => printed(rt, frames::put_refused(call.byte(4), out)),
            Putting::Bytes => filled(rt, hexline::fill_bytes(text, out)),
        }
    }

    pub(crate) fn putting(self, rt: &impl Print, what: Putting) -> io::Result<()> {
        let mut buf = [0u8; 64];
        fill_bytes(&mut buf);
        let Some(lent) = buf.get_mut(..self.call.len()) else {
            return print!(rt; "no such buffer");
        };
        self.put(rt, what, lent)?;
        print!(rt; "; buffer \"")?;
        rt.write_all(&buf)?;
        print!(rt; "\"")
    }
}
