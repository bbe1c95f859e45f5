// Hexadecimal digits: either case of letter is read, capitals are written.

ghost use Rattle.std.specs.Prelude.{◌≡◌};
ghost use Rattle.encoding.specs.Hex.{byte_of, digit_of};
ghost use Rattle.line.specs.Below.{if_below};

#[tactic(auto, unfolding(encoding::specs::Hex::digit_of))]
fn digit(c: u8) -> Option<u32>
    ensures { result ≡ if_below 16 (digit_of c) }
{
    char::from(c).to_digit(16)
}

// The byte that the first two characters spell, if they do.
pub fn hex_byte(text: &[u8]) -> Option<u8>
    ensures { result ≡ if_below 256 (byte_of text.now) }
{
    match text {
        [high, low, ..] => Some((16 * digit(*high)? + digit(*low)?) as u8),
        _ => None,
    }
}
