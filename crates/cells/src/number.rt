// Numbers of four bytes, the high byte first, alone or after a name; and bytes in their place.

ghost use Rattle.std.specs.Prelude.{◌+◌, ◌≤◌, ◌≡◌, ◌∷◌, ◌++◌, length};
ghost use Rattle.cells.specs.Bytes.{four_of, number_at, with_bytes};

// The number in the four bytes from here on.
pub fn number_at(bytes: &[u8], at: usize) -> u32
    requires { at + 4 ≤ length bytes.now }
    ensures { result ≡ number_at bytes.now at }
{
    u32::from_be_bytes([bytes[at], bytes[at + 1], bytes[at + 2], bytes[at + 3]])
}

// Four numbers, one after another.
pub fn four_numbers(a: u32, b: u32, c: u32, d: u32) -> [u8; 16]
    ensures { result ≡ four_of a ++ four_of b ++ four_of c ++ four_of d }
{
    let mut out = [0u8; 16];
    let numbers = [
        a.to_be_bytes(),
        b.to_be_bytes(),
        c.to_be_bytes(),
        d.to_be_bytes(),
    ];
    out.copy_from_slice(numbers.as_flattened());
    out
}

// A place or a phase: which one it is, and the party or the ticket that it may have.
pub fn cell(name: u8, n: u32) -> [u8; 5]
    ensures { result ≡ name ∷ four_of n }
{
    let [first, second, third, fourth] = n.to_be_bytes();
    [name, first, second, third, fourth]
}

// Bytes in their place among others, which stay.
pub fn put_bytes_at(out: &mut [u8], at: usize, bytes: &[u8])
    requires { at + length bytes.now ≤ length out.old }
    ensures { out.new ≡ with_bytes out.old at bytes.now }
{
    out[at..at + bytes.len()].copy_from_slice(bytes);
}
