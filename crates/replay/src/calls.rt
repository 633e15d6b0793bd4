// A call in a file: 64 bytes, numbers with the least significant byte first. Each number is read where it is used, and
// is 0 where the file ends before it:
//
//      0  the kind
//      1  the mode's number; of a change the field, see `changes`
//      2  the glyph; of a text 1 if it wraps
//      4  the code, a property's number, or a refusal's; of a text its place, counted from the font's first byte
//      8  the width; of a change the value; of a text where it wraps
//     16  the height; of a text its length
//     24  the pads, at the top and at the left
//     28  the colour
//     32  the buffer's length, the start, the stride, the scale
use modes::{Mode, is_known, mode_of};
use names::{Span, part_of};
use place::GlyphInfo;
use reads::{CharCode, GlyphIndex, byte_at, u16_at, u32_at};
use text::Wrap;

#[derive(Clone, Copy)]
pub(crate) enum Kind {
    Change,
    Draw(Drawing),
    Unpack,
    Prep,
    Step,
    Read(Reading),
    Check,
    Put(Putting),
}

#[derive(Clone, Copy)]
pub(crate) enum Drawing {
    Bitmap,
    Glyph,
    Char,
    // A placed glyph, with no record's test.
    Placed,
    Text,
}

#[derive(Clone, Copy)]
pub(crate) enum Reading {
    Record,
    Prop,
    Glyph,
    Name,
    Metrics,
    Dimensions,
    Accelerators,
    NameBytes,
    Codes,
    Strict,
}

#[derive(Clone, Copy)]
pub(crate) enum Putting {
    Frame,
    Refused,
    // The bytes of lines.
    Bytes,
}

// In the order of the kinds' numbers.
static NAMES: [&str; 23] = [
    "change",
    "draw_bitmap",
    "draw_glyph",
    "draw_char",
    "unpack_glyph",
    "prep_char",
    "show_glyph",
    "draw_string",
    "step_at",
    "load_pcf",
    "prop_at",
    "get_glyph",
    "get_name",
    "get_metrics",
    "dimensions",
    "accelerators",
    "name_bytes",
    "all_codes",
    "load_strict",
    "check",
    "put_frame",
    "put_refused",
    "fill_bytes",
];

#[derive(Clone, Copy)]
pub(crate) struct Call<'a>(pub(crate) &'a [u8]);

impl<'a> Call<'a> {
    pub(crate) const SIZE: usize = 64;

    // A number that no kind has stands for the last one, and has no name.
    pub(crate) fn kind(self) -> Kind {
        match self.byte(0) {
            0 => Kind::Change,
            1 => Kind::Draw(Drawing::Bitmap),
            2 => Kind::Draw(Drawing::Glyph),
            3 => Kind::Draw(Drawing::Char),
            4 => Kind::Unpack,
            5 => Kind::Prep,
            6 => Kind::Draw(Drawing::Placed),
            7 => Kind::Draw(Drawing::Text),
            8 => Kind::Step,
            9 => Kind::Read(Reading::Record),
            10 => Kind::Read(Reading::Prop),
            11 => Kind::Read(Reading::Glyph),
            12 => Kind::Read(Reading::Name),
            13 => Kind::Read(Reading::Metrics),
            14 => Kind::Read(Reading::Dimensions),
            15 => Kind::Read(Reading::Accelerators),
            16 => Kind::Read(Reading::NameBytes),
            17 => Kind::Read(Reading::Codes),
            18 => Kind::Read(Reading::Strict),
            19 => Kind::Check,
            20 => Kind::Put(Putting::Frame),
            21 => Kind::Put(Putting::Refused),
            _ => Kind::Put(Putting::Bytes),
        }
    }

    pub(crate) fn name(self) -> Option<&'static str> {
        NAMES.get(usize::from(self.byte(0))).copied()
    }

    pub(crate) fn byte(self, k: usize) -> u8 {
        byte_at(self.0, 0, k)
    }

    pub(crate) fn short(self, k: usize) -> u16 {
        u16_at(self.0, 0, k, false)
    }

    pub(crate) fn word(self, k: usize) -> u32 {
        u32_at(self.0, 0, k, false)
    }

    // A number of eight bytes.
    pub(crate) fn size(self, k: usize) -> usize {
        let low = u32_at(self.0, k, 0, false) as usize;
        let high = u32_at(self.0, k, 4, false) as usize;
        high * 4294967296 + low
    }

    pub(crate) fn mode(self) -> Option<Mode> {
        let number = u32::from(self.byte(1));
        is_known(number).then_some(mode_of(number))
    }

    pub(crate) fn number(self) -> u32 {
        self.word(4)
    }

    pub(crate) fn code(self) -> CharCode {
        CharCode(self.number())
    }

    pub(crate) fn glyph(self) -> GlyphIndex {
        GlyphIndex(self.short(2))
    }

    pub(crate) fn colour(self) -> u32 {
        self.word(28)
    }

    pub(crate) fn width(self) -> usize {
        self.size(8)
    }

    pub(crate) fn height(self) -> usize {
        self.size(16)
    }

    pub(crate) fn len(self) -> usize {
        self.size(32)
    }

    pub(crate) fn start(self) -> usize {
        self.size(40)
    }

    pub(crate) fn stride(self) -> usize {
        self.size(48)
    }

    pub(crate) fn scale(self) -> usize {
        self.size(56)
    }

    pub(crate) fn info(self) -> GlyphInfo {
        GlyphInfo {
            glyph: self.glyph(),
            width: self.short(8),
            height: self.short(16),
            pad_top: self.short(24),
            pad_left: self.short(26),
        }
    }

    pub(crate) fn wrap_at(self) -> Wrap {
        if self.byte(2) == 0 {
            Wrap::Never
        } else {
            Wrap::At(self.size(8) as u64)
        }
    }

    // The text of a call, a part of what is lent: the font's bytes, and the texts after them.
    pub(crate) fn text_in(self, lent: &'a [u8]) -> &'a [u8] {
        let span = Span {
            start: self.number() as usize,
            len: self.size(16),
        };
        part_of(lent, span)
    }
}
