// The calls that draw: as a dry run, whose buffer may be longer than any, and with a buffer lent to them.
use crate::answers::{because, char_drawn, drawn, text_drawn, unpacked};
use crate::asked::Asked;
use crate::calls::Drawing;
use console::{Changed, fill_bytes, fill_pixels};
use std::io;

impl Asked<'_> {
    fn dry(self, rt: &impl Print, how: Drawing) -> io::Result<()> {
        let Asked {
            font,
            rec,
            mode,
            call,
            text,
        } = self;
        let len = call.len();
        let start = call.start();
        let stride = call.stride();
        let scale = call.scale();
        print!(rt; "dry run ")?;
        match how {
            Drawing::Bitmap => drawn(
                rt,
                outcome::bitmap_check(
                    font,
                    rec,
                    call.glyph(),
                    call.width(),
                    call.height(),
                    len,
                    start,
                    stride,
                    scale,
                ),
            ),
            Drawing::Glyph => drawn(
                rt,
                glyphs::glyph_check(font, rec, mode, call.info(), len, start, stride, scale),
            ),
            Drawing::Char => char_drawn(
                rt,
                glyphs::char_check(font, rec, mode, call.code(), len, start, stride, scale),
            ),
            Drawing::Text => text_drawn(
                rt,
                text::text_check(
                    font,
                    rec,
                    mode,
                    text,
                    len,
                    start,
                    call.wrap_at(),
                    stride,
                    scale,
                ),
            ),
            Drawing::Placed => drawn(
                rt,
                glyphs::glyph_drawn(
                    font,
                    rec.bitmaps,
                    call.info(),
                    len,
                    start,
                    call.short(48),
                    call.byte(56),
                ),
            ),
        }
    }

    fn wet(self, rt: &impl Print, how: Drawing, buf: &mut [u32]) -> io::Result<()> {
        let Asked {
            font,
            rec,
            mode,
            call,
            text,
        } = self;
        let start = call.start();
        let stride = call.stride();
        let scale = call.scale();
        let colour = call.colour();
        match how {
            Drawing::Bitmap => drawn(
                rt,
                paint::draw_bitmap(
                    font,
                    rec,
                    call.glyph(),
                    call.width(),
                    call.height(),
                    buf,
                    start,
                    stride,
                    scale,
                    colour,
                ),
            ),
            Drawing::Glyph => drawn(
                rt,
                glyphs::draw_glyph(
                    font,
                    rec,
                    mode,
                    call.info(),
                    buf,
                    start,
                    stride,
                    scale,
                    colour,
                ),
            ),
            Drawing::Char => char_drawn(
                rt,
                glyphs::draw_char(
                    font,
                    rec,
                    mode,
                    call.code(),
                    buf,
                    start,
                    stride,
                    scale,
                    colour,
                ),
            ),
            Drawing::Text => text_drawn(
                rt,
                text::draw_string(
                    font,
                    rec,
                    mode,
                    text,
                    buf,
                    start,
                    call.wrap_at(),
                    stride,
                    scale,
                    colour,
                ),
            ),
            Drawing::Placed => drawn(
                rt,
                glyphs::show_glyph(
                    font,
                    rec.bitmaps,
                    call.info(),
                    buf,
                    start,
                    call.short(48),
                    call.byte(56),
                    colour,
                ),
            ),
        }
    }

    // The call with the buffer's first part lent to it, its dry run, and what changed in the whole buffer. Where there
    // is no buffer of that length, the dry run alone.
    fn pixels(self, rt: &impl Print, how: Drawing) -> io::Result<()> {
        let mut buf = [0u32; 4096];
        fill_pixels(&mut buf);
        let Some(lent) = buf.get_mut(..self.call.len()) else {
            return self.dry(rt, how);
        };
        self.wet(rt, how, lent)?;
        print!(rt; "; ")?;
        self.dry(rt, how)?;
        let colour = self.call.colour();
        print!(rt; "; pixels {}", Changed { buf: &buf, colour })
    }

    // Why a character is on the glass or not, in a buffer of any length.
    fn reason(self, rt: &impl Print) -> io::Result<()> {
        let Asked {
            font,
            rec,
            mode,
            call,
            ..
        } = self;
        print!(rt; "; why ")?;
        let told = why::why(
            font,
            rec,
            mode,
            call.code(),
            call.len(),
            call.start(),
            call.stride(),
            call.scale(),
        );
        because(rt, told)
    }

    // Of a character the reason too.
    pub(crate) fn drawing(self, rt: &impl Print, how: Drawing) -> io::Result<()> {
        self.pixels(rt, how)?;
        match how {
            Drawing::Char => self.reason(rt),
            _ => Ok(()),
        }
    }

    fn dry_unpacking(self, rt: &impl Print) -> io::Result<()> {
        let Asked {
            font,
            rec,
            mode,
            call,
            ..
        } = self;
        print!(rt; "dry run ")?;
        let answer = glyphs::unpack_check(
            font,
            rec,
            mode,
            call.info(),
            call.len(),
            call.start(),
            call.stride(),
        );
        unpacked(rt, answer)
    }

    // As `pixels`, with bytes. One function for both would take the filling, the call and its dry run as closures, and
    // be no shorter.
    pub(crate) fn unpacking(self, rt: &impl Print) -> io::Result<()> {
        let Asked {
            font,
            rec,
            mode,
            call,
            ..
        } = self;
        let mut buf = [0u8; 4096];
        fill_bytes(&mut buf);
        let Some(lent) = buf.get_mut(..call.len()) else {
            return self.dry_unpacking(rt);
        };
        let answer = glyphs::unpack_glyph(
            font,
            rec,
            mode,
            call.info(),
            lent,
            call.start(),
            call.stride(),
        );
        unpacked(rt, answer)?;
        print!(rt; "; ")?;
        self.dry_unpacking(rt)?;
        let colour = call.colour();
        print!(rt; "; pixels {}", Changed { buf: &buf, colour })
    }
}
