// What the directory has given so far, and what a table adds to it: it takes the place of an earlier
// one of its kind, so that the last one serves.
ghost use Rattle.std.specs.Prelude.{◌≡◌};
ghost use Rattle.load.specs.Gather.{nothing, added, all_six, finished};

use crate::blanks::blank;
use crate::{Entered, Gathered, Kinds, Loaded};
use reads::Refusal;
use tables::TableRead;

// Before the first entry: no kind, and numbers that nothing reads.
pub(crate) fn nothing_yet() -> Gathered
    ensures { result ≡ nothing }
{
    let tables = blank();
    let kinds = Kinds {
        props: false,
        accel: false,
        metrics: false,
        bitmaps: false,
        codes: false,
        names: false,
    };
    Gathered { tables, kinds }
}

// What the directory has given with this table too.
pub(crate) fn add(g: Gathered, read: TableRead) -> Entered
    ensures { result ≡ added g read }
{
    match read {
        TableRead::Properties(t) => {
            let mut r = g.tables;
            r.props = t;
            let mut h = g;
            h.tables = r;
            h.kinds.props = true;
            Entered::Next(h)
        }
        TableRead::Accelerators(t) => {
            let mut r = g.tables;
            r.accel = t;
            let mut h = g;
            h.tables = r;
            h.kinds.accel = true;
            Entered::Next(h)
        }
        TableRead::Metrics(t) => {
            let mut r = g.tables;
            r.metrics = t;
            let mut h = g;
            h.tables = r;
            h.kinds.metrics = true;
            Entered::Next(h)
        }
        TableRead::Bitmaps(t) => {
            let mut r = g.tables;
            r.bitmaps = t;
            let mut h = g;
            h.tables = r;
            h.kinds.bitmaps = true;
            Entered::Next(h)
        }
        TableRead::Codes(t) => {
            let mut r = g.tables;
            r.codes = t;
            let mut h = g;
            h.tables = r;
            h.kinds.codes = true;
            Entered::Next(h)
        }
        TableRead::Names(t) => {
            let mut r = g.tables;
            r.names = t;
            let mut h = g;
            h.tables = r;
            h.kinds.names = true;
            Entered::Next(h)
        }
        TableRead::Other => Entered::Next(g),
        TableRead::Refused(n) => Entered::Refused(n),
    }
}

fn all_six(k: Kinds) -> bool
    ensures { result ≡ all_six k }
{
    k.props & k.accel & k.metrics & k.bitmaps & k.codes & k.names
}

// The font, or 8 where a kind is missing.
pub(crate) fn finish(g: Gathered) -> Loaded
    ensures { result ≡ finished g }
{
    if all_six(g.kinds) {
        let tables = g.tables;
        Loaded::Font(tables)
    } else {
        Loaded::Refused(Refusal {
            number: 8,
            place: 0,
        })
    }
}
