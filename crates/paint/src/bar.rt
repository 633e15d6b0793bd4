// A bar of pixels: the block of a set bit, or of a run of them.
ghost use Rattle.std.specs.Prelude.{◌≡◌, ◌+◌, ◌*◌, ◌-◌, ◌≤◌, length};
ghost use Rattle.bitmaps.specs.Place.{place_at};
ghost use Rattle.bitmaps.specs.Paint.{painted};
ghost use Rattle.paint.specs.Ink.{in_line, in_bar};

// Colours n pixels from `at` on.
fn dots(buf: &mut [u32], at: usize, n: usize, colour: u32)
    requires { at + n ≤ length buf.old }
    ensures { buf.new ≡ painted (in_line at n) colour buf.old }
{
    let mut b = 0;
    while b < n {
        buf[at + b] = colour;
        b += 1;
    }
}

// Colours `scale` lines of `long` pixels, a stride apart.
pub(crate) fn bar(buf: &mut [u32], at: usize, stride: u16, scale: u8, long: usize, colour: u32)
    requires { at + (scale - 1) * stride + long ≤ length buf.old }
    ensures { buf.new ≡ painted (in_bar (place_at at stride scale) long) colour buf.old }
{
    let side = scale as usize;
    let mut a = 0;
    while a < side {
        dots(&mut *buf, at + a * stride as usize, long, colour);
        a += 1;
    }
}
