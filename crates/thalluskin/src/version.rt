// The version of the archive.
ghost use Rattle.std.specs.Prelude.{◌≡◌};
ghost use Rattle.thalluskin.specs.Version.{version};

// 10,000 times its first number, 100 times its second, and its third.
pub fn thalluskin_version() -> u32
    ensures { result ≡ version }
{
    100
}
