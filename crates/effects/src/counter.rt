// On which side of zero the counter is. As `0 < counter` where it is asked (crates/table, crates/plan) it would be no
// plainer: the definitions go by the cases of an integer, and each place would cite a law of its own.

ghost use Rattle.std.specs.Prelude.{◌≡◌};
ghost use Rattle.hub.specs.Table.{above_zero, below_zero};

pub fn above_zero(counter: i32) -> bool
    ensures { result ≡ above_zero counter }
{
    0 < counter
}

pub fn below_zero(counter: i32) -> bool
    ensures { result ≡ below_zero counter }
{
    counter < 0
}
