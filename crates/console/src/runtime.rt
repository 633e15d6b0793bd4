// What a program with a heap reads and prints through its runtime: the answer, or in a line why it has none.
ghost use Rattle.std.specs.Prelude.{◌≡◌, ◌<◌, ◌⊎◌, IfOk, IfErr, IsErrOf, IsTrue, is_err, vec_len};

use crate::answers::Fault;
use crate::files::read_full;
use reads::Refusal;
use std::alloc::AllocError;
use std::{fmt, io};

// As `Fault`, and memory that ran out: that is no line of the output, but an error of the program.
#[derive(Clone, Copy)]
pub enum Trouble {
    Input,
    Font(Refusal),
    Text(Refusal),
    Vetting(Refusal),
    Memory,
}

impl From<AllocError> for Trouble {
    ghost use Rattle.console.specs.declared.runtime.Trouble.{Trouble};

    ghost from_gives = { λ _ trouble. trouble ≡ Trouble.Memory };

    fn from(_error: AllocError) -> Trouble {
        Self::Memory
    }
}

impl fmt::Display for Trouble {
    fn fmt<W: fmt::Write>(&self, f: &mut fmt::Formatter<W>) -> fmt::Result {
        match *self {
            Trouble::Input => Fault::Input.fmt(f),
            Trouble::Font(r) => Fault::Font(r).fmt(f),
            Trouble::Text(r) => Fault::Text(r).fmt(f),
            Trouble::Vetting(r) => Fault::Vetting(r).fmt(f),
            Trouble::Memory => write!(f, "out of memory"),
        }
    }
}

// The runtime's input, to its end or to a read that fails. One of `limit` bytes may be longer, and is not taken.
pub fn input<R: Input + AllocGlobal>(rt: &R, limit: usize) -> Result<Vec<u8>, Trouble>
    ensures shorter { IfOk result (λ bytes. vec_len bytes < limit) }
    ensures refused { IfErr result (λ why. (why ≡ Trouble.Input) ⊎ (why ≡ Trouble.Memory)) }
{
    let mut bytes = vec![in rt.alloc(); 0u8; limit]?;
    let n = read_full(&mut rt.reader(), &mut bytes);
    if n < limit {
        bytes.truncate(n);
        Ok(bytes)
    } else {
        Err(Trouble::Input)
    }
}

// An answer, or the line of what was wrong; where memory ran out there is none, and the program ends as one that failed.
pub fn print_answer(rt: &impl Print, answer: Result<String, Trouble>) -> io::Result<()>
    ensures { IsErrOf answer Trouble.Memory → IsTrue (is_err result) }
{
    match answer {
        Ok(text) => print!(rt; "{text}"),
        Err(Trouble::Memory) => Err(AllocError.into()),
        Err(trouble) => println!(rt; "{trouble}"),
    }
}
