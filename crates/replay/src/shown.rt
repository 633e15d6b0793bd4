// Values in an answer: the numbers of a struct in the order of its fields, or with words before them.
use bitmaps::Rows;
use lookup::Supplier;
use names::Span;
use place::{Extent, GlyphInfo};
use props::{PropValue, Property};
use std::fmt;
use tables::{
    AcceleratorUnpacked, BitmapData, EncodingData, GlyphNameData, MetricsData, MetricsUnpacked,
    PropertiesData, Record,
};

#[derive(Drop)]
pub(crate) struct Shown<T>(pub(crate) T);

// 1 for true.
impl fmt::Display for Shown<bool> {
    fn fmt<W: fmt::Write>(&self, f: &mut fmt::Formatter<W>) -> fmt::Result {
        write!(f, "{}", u8::from(self.0))
    }
}

impl fmt::Display for Shown<Span> {
    fn fmt<W: fmt::Write>(&self, f: &mut fmt::Formatter<W>) -> fmt::Result {
        let Span { start, len } = self.0;
        write!(f, "{start} {len}")
    }
}

impl fmt::Display for Shown<Property> {
    fn fmt<W: fmt::Write>(&self, f: &mut fmt::Formatter<W>) -> fmt::Result {
        let name = Shown(self.0.name);
        match self.0.value {
            PropValue::Number(n) => write!(f, "{name} 0 {n}"),
            PropValue::String(s) => write!(f, "{name} 1 {}", Shown(s)),
        }
    }
}

impl fmt::Display for Shown<Extent> {
    fn fmt<W: fmt::Write>(&self, f: &mut fmt::Formatter<W>) -> fmt::Result {
        let Extent { height, width } = self.0;
        write!(f, "{height} {width}")
    }
}

impl fmt::Display for Shown<Rows> {
    fn fmt<W: fmt::Write>(&self, f: &mut fmt::Formatter<W>) -> fmt::Result {
        let Rows { drawn, dropped } = self.0;
        write!(f, "drawn {drawn}, dropped {dropped}")
    }
}

impl fmt::Display for Shown<GlyphInfo> {
    fn fmt<W: fmt::Write>(&self, f: &mut fmt::Formatter<W>) -> fmt::Result {
        let i = self.0;
        write!(
            f,
            "glyph {}, width {}, height {}",
            i.glyph.0, i.width, i.height
        )?;
        write!(f, ", pad top {}, pad left {}", i.pad_top, i.pad_left)
    }
}

impl fmt::Display for Shown<Supplier> {
    fn fmt<W: fmt::Write>(&self, f: &mut fmt::Formatter<W>) -> fmt::Result {
        let Supplier { code, is_default } = self.0;
        write!(f, "code {}, default {}", code.0, Shown(is_default))
    }
}

impl fmt::Display for Shown<MetricsUnpacked> {
    fn fmt<W: fmt::Write>(&self, f: &mut fmt::Formatter<W>) -> fmt::Result {
        let m = self.0;
        write!(f, "{} {} {}", m.left, m.right, m.width)?;
        write!(f, " {} {} {}", m.ascent, m.descent, m.attributes)
    }
}

impl fmt::Display for Shown<AcceleratorUnpacked> {
    fn fmt<W: fmt::Write>(&self, f: &mut fmt::Formatter<W>) -> fmt::Result {
        let a = self.0;
        write!(f, "{} {} {}", a.format, a.noOverlap, a.constantMetrics)?;
        write!(f, " {} {} {}", a.terminalFont, a.constantWidth, a.inkInside)?;
        write!(f, " {} {} {}", a.inkMetrics, a.drawDirection, a.padding)?;
        write!(f, " {} {} {}", a.fontAscent, a.fontDescent, a.maxOverlap)?;
        write!(f, " {} {}", Shown(a.minbounds), Shown(a.maxbounds))
    }
}

impl fmt::Display for Shown<PropertiesData> {
    fn fmt<W: fmt::Write>(&self, f: &mut fmt::Formatter<W>) -> fmt::Result {
        let p = self.0;
        write!(f, "{} {} {}", Shown(p.big), p.count, p.records)?;
        write!(f, " {} {}", p.strings, p.size)
    }
}

impl fmt::Display for Shown<MetricsData> {
    fn fmt<W: fmt::Write>(&self, f: &mut fmt::Formatter<W>) -> fmt::Result {
        let m = self.0;
        write!(f, "{} {}", Shown(m.big), Shown(m.compressed))?;
        write!(f, " {} {}", m.count, m.records)
    }
}

impl fmt::Display for Shown<BitmapData> {
    fn fmt<W: fmt::Write>(&self, f: &mut fmt::Formatter<W>) -> fmt::Result {
        let b = self.0;
        write!(f, "{} {} {}", Shown(b.big), b.count, b.offsets)?;
        write!(f, " {} {} {}", b.bits, b.size, b.pad)?;
        write!(f, " {} {}", b.unit, Shown(b.top))
    }
}

impl fmt::Display for Shown<EncodingData> {
    fn fmt<W: fmt::Write>(&self, f: &mut fmt::Formatter<W>) -> fmt::Result {
        let c = self.0;
        write!(f, "{} {} {}", Shown(c.big), c.low2, c.high2)?;
        write!(f, " {} {} {}", c.low1, c.high1, c.default)?;
        write!(f, " {} {}", c.entries, c.size)
    }
}

impl fmt::Display for Shown<GlyphNameData> {
    fn fmt<W: fmt::Write>(&self, f: &mut fmt::Formatter<W>) -> fmt::Result {
        let n = self.0;
        write!(f, "{} {} {}", Shown(n.big), n.count, n.offsets)?;
        write!(f, " {} {}", n.strings, n.size)
    }
}

impl fmt::Display for Shown<Record> {
    fn fmt<W: fmt::Write>(&self, f: &mut fmt::Formatter<W>) -> fmt::Result {
        let rec = self.0;
        write!(f, "{} {}", Shown(rec.props), Shown(rec.accel))?;
        write!(f, " {} {}", Shown(rec.metrics), Shown(rec.bitmaps))?;
        write!(f, " {} {}", Shown(rec.codes), Shown(rec.names))
    }
}
