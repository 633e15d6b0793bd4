// The dump of standard input.
//
// A font of 49,152 bytes has at most 147,456 characters, two digits and a newline a byte. A longer
// text is refused with 20, and so are its first 147,457 characters: the rest need not be read.
#![tactic(auto)]

// An array and a count: a Vec's `read_to_end` tells of a read that fails, which here counts as the input's end.
fn main() {
    let mut text = [0u8; 147457];
    let n = io::read_full(0, &mut text);
    dumper::print_dump(&text[..n]);
}
