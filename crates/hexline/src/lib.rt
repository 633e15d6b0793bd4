// Font bytes as lines of hexadecimal digits: the dump's input.
#![tactic(auto)]

ghost use Rattle.std.specs.Prelude.{◌≡◌, ◌≤◌, ◌<◌, length, MatchOption};
ghost use Rattle.hexline.specs.Lines.{digit_of, bad_line, hex_read, hex_bytes};
ghost use Rattle.hexline.specs.Fill.{hex_into, hex_leaves};

use reads::Refusal;

// How many bytes the lines have, or 20 with the line's number; 15 where a buffer is too short.
#[derive(Clone, Copy)]
pub enum HexRead {
    Bytes(usize),
    Refused(Refusal),
}

// The value of an upper-case hexadecimal digit.
#[tactic(auto, using(crate::proofs::Scan::tests), unfolding(crate::specs::Lines::digit_of))]
fn digit_of(c: u8) -> Option<u8>
    ensures { MatchOption result (16 ≤ digit_of c) (λ d. (d ≡ digit_of c) × (d < 16)) }
{
    match c {
        b'0'..=b'9' => Some(c - b'0'),
        b'A'..=b'F' => Some(c - b'A' + 10),
        _ => None,
    }
}

fn bad_line(line: usize) -> HexRead
    ensures { result ≡ bad_line line }
{
    HexRead::Refused(Refusal {
        number: 20,
        place: line,
    })
}

// How many bytes a text of lines has, each line 2 to 64 upper-case hexadecimal digits, even in
// number, and a newline. Refused with 20 and the number, from 1, of the first line that is not such
// a line or with which there are more than 49,152 bytes. A text of no line has 0 bytes.
#[tactic(auto, using(crate::proofs::Scan::turns))]
pub fn hex_read(text: &[u8]) -> HexRead
    ensures { result ≡ hex_read text.now }
{
    let mut line: usize = 1;
    let mut bytes: usize = 0;
    let mut digits: usize = 0;
    for c in text {
        if *c == b'\n' {
            if digits < 2 {
                return bad_line(line);
            }
            if digits % 2 == 1 {
                return bad_line(line);
            }
            let more = bytes + digits / 2;
            if 49152 < more {
                return bad_line(line);
            }
            bytes = more;
            line += 1;
            digits = 0;
            continue;
        }
        if digit_of(*c).is_none() {
            return bad_line(line);
        }
        if 64 <= digits {
            return bad_line(line);
        }
        digits += 1;
    }
    if digits == 0 {
        HexRead::Bytes(bytes)
    } else {
        bad_line(line)
    }
}

// The bytes of a text without a bad line, at the start of a buffer that has room for them.
#[tactic(auto, using(crate::proofs::Ahead::turns))]
fn fill_pairs(text: &[u8], out: &mut [u8])
    requires text_value { hex_read text.now ≡ HexRead.Bytes (length (hex_bytes text.now)) }
    requires text_in_bounds { length (hex_bytes text.now) ≤ length out.old }
    ensures { out.new ≡ hex_leaves text.now (hex_read text.now) out.old }
{
    // A byte's first digit waits here for its second. `at` counts bytes, so no count of characters is it.
    let mut high = None;
    let mut at = 0;
    for c in text {
        // What is no digit is a newline.
        let Some(digit) = digit_of(*c) else {
            continue;
        };
        match high {
            None => {
                high = Some(digit);
            }
            Some(first) => {
                out[at] = first * 16 + digit;
                at += 1;
                high = None;
            }
        }
    }
}

// Puts the bytes of a text of lines at the start of `out`, and answers how many they are. Refused
// as by `hex_read`, and then with 15 where `out` is shorter than the bytes; a refusal leaves `out`
// as it was, and no call changes what stands in it after the bytes.
#[tactic(auto, using(crate::proofs::Filled::answers), unfolding(crate::specs::Fill::hex_into))]
pub fn fill_bytes(text: &[u8], out: &mut [u8]) -> HexRead
    ensures value { result ≡ hex_into text.now (length out.old) }
    ensures out_after { out.new ≡ hex_leaves text.now result out.old }
{
    match hex_read(text) {
        HexRead::Bytes(n) => {
            if out.len() < n {
                return HexRead::Refused(Refusal {
                    number: 15,
                    place: 0,
                });
            }
            fill_pairs(text, out);
            HexRead::Bytes(n)
        }
        HexRead::Refused(r) => HexRead::Refused(r),
    }
}
