// The dump of each file that an argument names: what `dump` writes for it, after its name.
#![tactic(auto)]

ghost use Rattle.std.specs.Prelude.{◌≡◌, length};

use console::{file_of_argument, has_argument};

// Room for the longest file of data/ and a byte more. Its clause has its length, so that it need not be counted.
fn room() -> [u8; 147460]
    ensures { 147460 ≡ length result }
{
    [0; 147460]
}

// Up to 999 files.
fn main(rt: HostRuntime) {
    let mut text = room();
    for i in (1..1000).take_while(|i| has_argument(&rt, *i)) {
        let n = file_of_argument(&rt, i, &mut text);
        dumper::print_dump(&text[..n]);
    }
}
