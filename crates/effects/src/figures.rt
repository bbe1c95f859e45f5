// The figures with one of them changed.

ghost use Rattle.std.specs.Prelude.{◌≡◌};
ghost use Rattle.hub.specs.Table.{with_begun, with_counter, with_issued, with_resumed};

use hub::record::Figures;

pub fn with_counter(counter: i32, f: Figures) -> Figures
    ensures { result ≡ with_counter counter f }
{
    Figures { counter, ..f }
}

pub fn with_issued(issued: u32, f: Figures) -> Figures
    ensures { result ≡ with_issued issued f }
{
    Figures { issued, ..f }
}

pub fn with_resumed(resumed: u32, f: Figures) -> Figures
    ensures { result ≡ with_resumed resumed f }
{
    Figures { resumed, ..f }
}

pub fn with_begun(begun: u32, f: Figures) -> Figures
    ensures { result ≡ with_begun begun f }
{
    Figures { begun, ..f }
}
