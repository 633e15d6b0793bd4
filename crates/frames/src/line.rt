// A line of the dump, written into a lent buffer one character after the other.
ghost use Rattle.std.specs.Prelude.{◌≡◌, [], ◌∷◌, ◌+◌, ◌*◌, ◌≤◌, ◌<◌, ◌^◌, max, length};
ghost use Rattle.frames.specs.Hex.{hex_digit, hex_byte, hex_four, hex_all, field, ◌␣◌};
ghost use Rattle.frames.specs.Wrote.{Wrote};

#[tactic(auto, using(crate::proofs::HexRuns::tests), unfolding(crate::specs::Hex::hex_digit))]
fn hex_digit(n: u8) -> u8
    requires { n < 16 }
    ensures { result ≡ hex_digit n }
{
    if n < 10 { b'0' + n } else { b'A' + (n - 10) }
}

// How many characters a field of n bytes has.
pub(crate) fn field_size(n: usize) -> usize
    requires { 2 * n < 2 ^ 63 }
    ensures { result ≡ max 1 (2 * n) }
{
    if n == 0 {
        return 1;
    }
    2 * n
}

// The buffer, and the place in it of the next character.
#[derive(Drop)]
pub(crate) struct Line<'a> {
    out: &'a mut [u8],
    at: usize,
}

impl<'a> Line<'a> {
    // A line at the start of a buffer.
    pub(crate) fn new(out: &'a mut [u8]) -> Line<'a>
        ensures same_buffer { result.out.ghost_name ≡ out.entry.ghost_name }
        ensures unwritten { result.out.now ≡ out.old }
        ensures at_start { result.at ≡ 0 }
    {
        Line { out, at: 0 }
    }

    // How many characters it has.
    pub(crate) fn len(&self) -> usize
        ensures { result ≡ self.now.at }
    {
        self.at
    }

    pub(crate) fn character(&mut self, c: u8)
        requires { self.old.at < length self.old.out.now }
        ensures { Wrote self.old.out self.old.at (c ∷ []) self.new.out self.new.at }
    {
        self.out[self.at] = c;
        self.at += 1;
    }

    // Characters as they are.
    pub(crate) fn text(&mut self, src: &[u8])
        requires { self.old.at + length src.now ≤ length self.old.out.now }
        ensures { Wrote self.old.out self.old.at src.now self.new.out self.new.at }
    {
        let end = self.at + src.len();
        self.out[self.at..end].copy_from_slice(src);
        self.at = end;
    }

    // A byte's two digits.
    #[tactic(auto, using(crate::proofs::Chain::then))]
    pub(crate) fn byte(&mut self, b: u8)
        requires { self.old.at + 2 ≤ length self.old.out.now }
        ensures { Wrote self.old.out self.old.at (hex_byte b) self.new.out self.new.at }
    {
        self.character(hex_digit(b / 16));
        self.character(hex_digit(b % 16));
    }

    // A number's four digits and the space after them.
    #[tactic(auto, using(crate::proofs::Chain::then))]
    pub(crate) fn number(&mut self, n: u16)
        requires { self.old.at + 5 ≤ length self.old.out.now }
        ensures { Wrote self.old.out self.old.at (hex_four n ␣ []) self.new.out self.new.at }
    {
        self.byte((n / 256) as u8);
        self.byte((n % 256) as u8);
        self.character(b' ');
    }

    // The digits of all these bytes.
    fn bytes(&mut self, src: &[u8])
        requires { self.old.at + 2 * length src.now ≤ length self.old.out.now }
        ensures { Wrote self.old.out self.old.at (hex_all src.now) self.new.out self.new.at }
    {
        for b in src {
            self.byte(*b);
        }
    }

    // A field of these bytes: their digits, or a dash where there are none.
    #[tactic(auto, using(crate::proofs::HexRuns::fields))]
    pub(crate) fn field(&mut self, src: &[u8])
        requires { self.old.at + max 1 (2 * length src.now) ≤ length self.old.out.now }
        ensures { Wrote self.old.out self.old.at (field src.now) self.new.out self.new.at }
    {
        if src.is_empty() {
            self.character(b'-');
        } else {
            self.bytes(src);
        }
    }
}
