// Standard output for programs that cannot fail: they end with 0 where it does not take what they print.
ghost use Rattle.std.specs.Prelude.{◌≤◌, IsOk};

use crate::words::say;
use std::fmt;
use std::fmt::Write;
use std::io::Result;

// What is printed is collected, and written when the room is full: a small one, since it stands on the stack.
#[derive(Drop)]
struct Collected {
    room: [u8; 256],
    len: usize,
    ghost within: { len ≤ 256 },
}

impl Collected {
    fn new() -> Collected {
        Collected {
            room: [0; 256],
            len: 0,
        }
    }

    fn flush(&mut self) {
        say(&self.room[..self.len]);
        self.len = 0;
    }
}

// A piece is not cut, so no character is.
impl fmt::Write for Collected {
    fn write_str(&mut self, s: &str) -> fmt::Result {
        let piece = s.as_bytes();
        if self.room.len() - self.len < piece.len() {
            self.flush();
        }
        let end = self.len + piece.len();
        if let Some(free) = self.room.get_mut(self.len..end) {
            free.copy_from_slice(piece);
            self.len = end;
        } else {
            say(piece);
        }
        Ok(())
    }
}

// Standard output of which a write that fails is not told: what follows is written all the same.
#[derive(Clone, Copy)]
pub struct QuietOutput;

impl Print for QuietOutput {
    fn print<D: fmt::Display + Drop>(&self, value: D) -> Result<()>
        ensures { IsOk result }
    {
        let mut out = Collected::new();
        let _ = out.write(value);
        out.flush();
        Ok(())
    }

    fn println<D: fmt::Display + Drop>(&self, value: D) -> Result<()>
        ensures { IsOk result }
    {
        let mut out = Collected::new();
        let _ = out.writeln(value);
        out.flush();
        Ok(())
    }

    fn write_all(&self, bytes: &[u8]) -> Result<()>
        ensures { IsOk result }
    {
        say(bytes);
        Ok(())
    }
}
