// Words on standard output.
ghost use Rattle.std.specs.Prelude.{Some, ◌++◌, codes, decimal};

use reads::Refusal;
use std::fmt;

// A refusal, printed as `refused 16 at 11`.
#[derive(Drop)]
pub struct Refused(pub Refusal);

impl fmt::Display for Refused {
    ghost output = { λ r. Some (codes "refused " ++ (decimal r.0.number ++ (codes " at " ++ decimal r.0.place))) };

    fn fmt<W: fmt::Write>(&self, f: &mut fmt::Formatter<W>) -> fmt::Result {
        let Refusal { number, place } = self.0;
        write!(f, "refused {number} at {place}")
    }
}

// Words on standard output without a format's `Result`, for what cannot fail: a write that fails is not told. By the
// kit's `io`, which stands on no more of the C library than `write`.
pub(crate) fn say(text: &[u8]) {
    io::write_all(1, text);
}
