//! The bits of the arrival word.

ghost use Rattle.std.specs.Prelude.{◌≡◌, ◌^◌, ◌<◌};

/// The word that has this one bit.
pub(crate) fn bit_of(number: u32) -> u64
    requires { number < 16 }
    ensures { result ≡ 2 ^ number }
{
    1 << number
}
