// What the programs share: what they read and print of an input, words and codes on standard output, a text's
// characters, the files that arguments name, and buffers that have known values before a call.
#![tactic(auto)]

mod answers;
mod buffers;
mod characters;
mod codes;
mod files;
mod output;
mod runtime;
#[cfg(test)]
mod tests;
mod words;

pub use answers::{Fault, UnknownKind, area, input_into, number_in, print_quietly};
pub use buffers::{Changed, fill_bytes, fill_pixels};
pub use characters::{Characters, Code, seen};
pub use codes::unseen;
pub use files::{file_of_argument, has_argument};
pub use output::QuietOutput;
pub use runtime::{Trouble, input, print_answer};
pub use words::Refused;
