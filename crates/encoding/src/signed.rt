// The counter as four bytes: two's complement.

ghost use Rattle.std.specs.Prelude.{◌≡◌};
ghost use Rattle.encoding.specs.Frame.{twos_complement};

pub fn twos_complement(n: i32) -> u32
    ensures { result ≡ twos_complement n }
{
    n.cast_unsigned()
}
