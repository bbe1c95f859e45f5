// Answers as bytes, three each.

ghost use Rattle.std.specs.Prelude.{◌≡◌, [], ◌∷◌, ◌*◌, ◌+◌, ◌%◌, ◌≤◌, length};
ghost use Rattle.perform.specs.Bytes.{with_answer};

// The three bytes of one answer.
fn put(out: &mut [u8], code: u8, woken: u32, steps: u8)
    requires { length out.old ≡ 3 }
    ensures { out.new ≡ code ∷ woken % 256 ∷ steps ∷ [] }
{
    out[0] = code;
    out[1] = (woken % 256) as u8;
    out[2] = steps;
}

// The answer to operation i, in its place.
pub(crate) fn put_at(out: &mut [u8], i: usize, code: u8, woken: u32, steps: u8)
    requires { 3 * i + 3 ≤ length out.old }
    ensures { out.new ≡ with_answer i (code ∷ woken % 256 ∷ steps ∷ []) out.old }
{
    let at = 3 * i;
    put(&mut out[at..at + 3], code, woken, steps);
}
