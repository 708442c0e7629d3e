//! Finding a digest by its place.

ghost use Rattle.std.specs.Prelude.{◌≡◌, ◌<◌, ◌^◌};
ghost use Rattle.std.specs.List.{slice_get};

pub(crate) fn power_of_two(exponent: u8) -> u32
    requires { exponent < 32 }
    ensures { result ≡ 2 ^ exponent }
{
    1u32 << exponent
}

pub(crate) fn digest_at(digests: &[[u8; 32]], place: usize) -> Option<[u8; 32]>
    ensures { result ≡ slice_get digests.now place }
{
    digests.get(place).copied()
}

pub(crate) fn number_at(numbers: &[u32], place: usize) -> Option<u32>
    ensures { result ≡ slice_get numbers.now place }
{
    numbers.get(place).copied()
}
