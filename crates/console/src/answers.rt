// What a program that answers one input reads and prints: the answer, or in a line why it has none.
ghost use Rattle.std.specs.Prelude.{◌≡◌, ◌*◌, ◌<◌, length, IfOk, IfErr};
ghost use Rattle.console.specs.Asked.{number_in};

use crate::output::QuietOutput;
use reads::{Refusal, u32_at};
use std::fmt;

// Why there is no answer, or none that vetting agrees with.
#[derive(Clone, Copy)]
pub enum Fault {
    Input,
    Font(Refusal),
    Text(Refusal),
    Vetting(Refusal),
}

// For a script: a refusal's number in two digits, its place, and what is refused.
impl fmt::Display for Fault {
    fn fmt<W: fmt::Write>(&self, f: &mut fmt::Formatter<W>) -> fmt::Result {
        match self {
            Fault::Input => write!(f, "bad input"),
            Fault::Font(r) => write!(f, "refused {:02} place {} font", r.number, r.place),
            Fault::Text(r) => write!(f, "refused {:02} place {} text", r.number, r.place),
            Fault::Vetting(r) => write!(f, "refused {:02} place {} vetting", r.number, r.place),
        }
    }
}

// A number that stands for no kind of request.
#[derive(Clone, Copy)]
pub struct UnknownKind;

// Standard input, to its end or to a read that fails. One that fills the room may be longer, and is not taken.
pub fn input_into(room: &mut [u8]) -> Result<&[u8], Fault>
    ensures shorter { IfOk result (λ bytes. length bytes.now < length room.old) }
    ensures refused { IfErr result (λ why. why ≡ Fault.Input) }
{
    let limit = room.len();
    let n = io::read_full(0, room);
    if n < limit {
        Ok(&room[..n])
    } else {
        Err(Fault::Input)
    }
}

// The number at this place, of an input that begins with numbers of four bytes, the least significant first.
pub fn number_in(input: &[u8], place: u8) -> u32
    ensures { result ≡ number_in input.now place }
{
    u32_at(input, 4 * place as usize, 0, false)
}

// How many pixels a panel has: a product of two numbers of four bytes fits eight.
pub fn area(width: u32, height: u32) -> usize
    ensures { result ≡ width * height }
{
    width as usize * height as usize
}

// An answer, or the line of what was wrong. Printing quietly has no error to tell.
pub fn print_quietly<A: fmt::Display + Drop>(answer: Result<A, Fault>) {
    let _ = match answer {
        Ok(answer) => print!(QuietOutput; "{answer}"),
        Err(fault) => println!(QuietOutput; "{fault}"),
    };
}
