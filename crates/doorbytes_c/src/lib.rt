// `doorbytes` for C and Rust: `book_enter` and `book_lock` under their own names, with their promises.

#![tactic(auto)]

ghost use Rattle.std.specs.Prelude.{◌≡◌};
ghost use Rattle.doorbook.specs.Bytes.{enter_bytes, enter_code, lock_in};

// A book is 800 bytes, and 800 bytes of 0 are the empty one. Gives the answer's code, or 255, with
// nothing written, if it is handed no book.
#[unsafe(no_mangle)]
pub extern "C" fn book_enter(book: &mut [u8], frame: &[u8]) -> u8
    ensures { (result ≡ enter_code book.old frame.now)
        × (book.new ≡ enter_bytes book.old frame.now) }
{
    doorbytes::book_enter(book, frame)
}

// The lock at a door: 0 if none, if the door is above 199, or if it is handed no book.
#[unsafe(no_mangle)]
pub extern "C" fn book_lock(book: &[u8], door: u8) -> u32
    ensures { result ≡ lock_in book.now door }
{
    doorbytes::book_lock(book, door)
}
