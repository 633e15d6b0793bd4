// What no clause says of what reads and prints through a runtime: which bytes are taken, what is printed, and that it
// succeeds.
use crate::{Trouble, input, print_answer};
use reads::Refusal;
use std::alloc::{AllocError, Allocator, Global};
use std::cell::Cell;
use std::fmt::Display;
use std::io;
use std::io::{BufRead, Chain, ErrorKind, Lines, Read};
use std::test::Fail;

// An input that is in memory, and gives its bytes in two reads.
#[derive(Drop)]
struct Given<'a>(&'a [u8], &'a [u8]);

impl<'a> Input for Given<'a> {
    type Reader = Chain<&'a [u8], &'a [u8]>;

    fn read_line<A: Allocator + Clone>(&self, buf: &mut String<A>) -> io::Result<usize> {
        self.reader().read_line(buf)
    }

    fn lines<A: Allocator>(&self, alloc: A) -> Lines<Chain<&'a [u8], &'a [u8]>, A> {
        self.reader().lines(alloc)
    }

    fn reader(&self) -> Chain<&'a [u8], &'a [u8]> {
        self.0.chain(self.1)
    }
}

// An output that keeps the last text printed, or one that takes none.
#[derive(Drop)]
struct Sheet {
    alloc: Global,
    text: Cell<String>,
    closed: bool,
}

impl Sheet {
    fn new(alloc: Global, closed: bool) -> Sheet {
        Sheet {
            alloc,
            text: Cell::new(String::new(alloc)),
            closed,
        }
    }

    fn keep(&self, text: String) -> io::Result<()> {
        if self.closed {
            return Err(ErrorKind::BrokenPipe.into());
        }
        self.text.set(text);
        Ok(())
    }
}

impl Print for Sheet {
    fn print<D: Display + Drop>(&self, value: D) -> io::Result<()> {
        self.keep(format!(in self.alloc; "{value}")?)
    }

    fn println<D: Display + Drop>(&self, value: D) -> io::Result<()> {
        self.keep(format!(in self.alloc; "{value}\n")?)
    }

    fn write_all(&self, bytes: &[u8]) -> io::Result<()> {
        self.print(String::from_utf8_lossy(self.alloc, bytes)?)
    }
}

#[test]
fn input_of_a_runtime(rt: HostRuntime) -> Result<(), Fail> {
    let given = (Given(b"21", b".0"), rt.alloc());
    for limit in 5..8 {
        let bytes = input(&given, limit).ok().ok_or("refused")?;
        assert_eq!(rt; bytes.as_slice(), b"21.0".as_slice());
    }
    for limit in 0..5 {
        assert!(rt;
            matches!(input(&given, limit), Err(Trouble::Input)),
            "of {limit} bytes at most"
        );
    }
    Ok(())
}

// What is printed on an output that keeps it.
fn printed(alloc: Global, answer: Result<String, Trouble>) -> io::Result<String> {
    let sheet = Sheet::new(alloc, false);
    print_answer(&sheet, answer)?;
    Ok(sheet.text.into_inner())
}

#[test]
fn answer_on_a_runtime(rt: HostRuntime) -> Result<(), Fail> {
    let no = Refusal {
        number: 6,
        place: 11,
    };
    for (trouble, line) in [
        (Trouble::Input, "bad input\n"),
        (Trouble::Font(no), "refused 06 place 11 font\n"),
        (Trouble::Text(no), "refused 06 place 11 text\n"),
        (Trouble::Vetting(no), "refused 06 place 11 vetting\n"),
    ] {
        assert_eq!(rt; printed(rt.alloc(), Err(trouble))?.as_str(), line);
    }
    let text = format!(in rt.alloc(); "no row dropped")?;
    assert_eq!(rt; printed(rt.alloc(), Ok(text))?.as_str(), "no row dropped");
    Ok(())
}

#[test]
fn answer_that_fails(rt: HostRuntime) -> Result<(), Fail> {
    let sheet = Sheet::new(rt.alloc(), false);
    assert!(rt; print_answer(&sheet, Err(AllocError.into())).is_err());
    assert_eq!(rt; sheet.text.into_inner().as_str(), "", "nothing is printed");
    let line = format!(in rt.alloc(); "{}", Trouble::Memory)?;
    assert_eq!(rt; line.as_str(), "out of memory");
    let closed = Sheet::new(rt.alloc(), true);
    assert!(rt; print_answer(&closed, Err(Trouble::Input)).is_err());
    let text = format!(in rt.alloc(); "no row dropped")?;
    assert!(rt; print_answer(&closed, Ok(text)).is_err());
    Ok(())
}
