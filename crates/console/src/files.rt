// The files that the program's arguments name.
ghost use Rattle.std.specs.Prelude.{◌≤◌, length};
ghost use Rattle.io.specs.Counts.{IsPrefixLen};

use crate::words::say;
use std::env::{Env, FillError};
use std::fs;
use std::fs::Files;
use std::io::Read;
use std::str::from_utf8;

// Argument i at the start of `path`, and how long it is: 0 where there is none, or it is longer than `path`.
fn argument<R: Env>(rt: &R, i: usize, path: &mut [u8]) -> usize
    ensures { result ≤ length path.new }
{
    rt.arg(i, path).unwrap_or(0)
}

// Whether the program has an argument i, its own name being argument 0.
pub fn has_argument<R: Env>(rt: &R, i: usize) -> bool {
    !matches!(rt.arg(i, &mut []), Err(FillError::NotPresent))
}

// Reads until `out` is full, the file ends or a read fails.
pub(crate) fn read_full<F: Read>(file: &mut F, out: &mut [u8]) -> usize
    ensures { IsPrefixLen result out.new }
{
    let mut done = 0;
    while let Ok(n) = file.read(&mut out[done..])
        && n > 0
    {
        done += n;
    }
    done
}

// The file's bytes at the start of `out`. One that fills `out` may be longer than it, and is not taken.
fn bytes_of<F: Read>(file: &mut F, out: &mut [u8]) -> usize
    ensures { IsPrefixLen result out.new }
{
    let n = read_full(file, out);
    if n == out.len() {
        say(b"too long\n");
        return 0;
    }
    n
}

// The same of the file at this path, if there is one.
fn file_at<R: Files>(rt: &R, path: &[u8], out: &mut [u8]) -> usize
    ensures { IsPrefixLen result out.new }
{
    if let Ok(name) = from_utf8(path)
        && let Ok(mut file) = fs::open(rt, name)
    {
        return bytes_of(&mut file, out);
    }
    say(b"no file\n");
    0
}

// Writes a line with the name that argument i is, puts that file's bytes at the start of `out`, and answers how
// many there are. Where there is no file, or it is not shorter than `out`, a line says so and the answer is 0.
// A lent buffer and a count, as its clause has them: a Vec could fail, and this function cannot.
pub fn file_of_argument<R: Env + Files>(rt: &R, i: usize, out: &mut [u8]) -> usize
    ensures { IsPrefixLen result out.new }
{
    let mut path = io::buffer();
    let length = argument(rt, i, &mut path);
    say(b"== ");
    say(&path[..length]);
    say(b"\n");
    file_at(rt, &path[..length], out)
}
