// The door book as 800 bytes, altered in place, for C and Rust: 200 locks of four bytes, the high byte first.

#![tactic(auto)]

ghost use Rattle.std.specs.Prelude.{◌+◌, ◌≤◌, ◌≡◌, length};
ghost use Rattle.doorbook.specs.Book.{answer_to, stands};
ghost use Rattle.doorbook.specs.Bytes.{bytes_after, enter_bytes, enter_code, fitted_at, lock_in, locks_of};

use doorbook::{LAST, NONE, Refusal, Replacement, code, number_at};

const NO_BOOK: u8 = 255; // answers what is handed no book

// Does a lock stand at any door?
fn stands_in(book: &[u8], lock: u32) -> bool
    requires { length book.now ≡ 800 }
    ensures { result ≡ stands lock (locks_of book.now) }
{
    let (locks, _) = book.as_chunks::<4>();
    locks.iter().any(|bytes| u32::from_be_bytes(*bytes) == lock)
}

// The new lock's four bytes, from the frame into the book.
fn fit(book: &mut [u8], at: usize, frame: &[u8])
    requires { (at + 4 ≤ length book.old) × (length frame.now ≡ 10) }
    ensures { book.new ≡ fitted_at at book.old frame.now }
{
    book[at..at + 4].copy_from_slice(&frame[2..6]);
}

#[tactic(auto, using(doorbook::proofs::Laws::Bytes::lock_there), unfolding(doorbook::specs::Book::answer_to, doorbook::specs::Book::lock_at, doorbook::specs::Bytes::bytes_after))]
fn enter_in(book: &mut [u8], frame: &[u8]) -> Result<(), Refusal>
    requires { length book.old ≡ 800 }
    ensures answer { result ≡ answer_to (locks_of book.old) frame.now }
    ensures book { book.new ≡ bytes_after book.old frame.now }
{
    let new = Replacement::read(frame)?;
    let at = 4 * new.door as usize;
    let stands = new.lock != NONE && stands_in(book, new.lock); // no search for a lock that is none
    new.admit(stands, number_at(book, at))?;
    fit(book, at, frame);
    Ok(())
}

// For C and Rust: a book is 800 bytes, and 800 bytes of 0 are the empty one. Gives the answer's
// code, or 255, with nothing written, if it is handed no book.
pub fn book_enter(book: &mut [u8], frame: &[u8]) -> u8
    ensures { (result ≡ enter_code book.old frame.now)
        × (book.new ≡ enter_bytes book.old frame.now) }
{
    if book.len() != 800 {
        return NO_BOOK;
    }
    code(enter_in(book, frame))
}

// The lock at a door: 0 if none, if the door is above 199, or if it is handed no book.
#[tactic(auto, using(doorbook::proofs::Laws::Bytes::lock_there), unfolding(doorbook::specs::Book::lock_at))]
pub fn book_lock(book: &[u8], door: u8) -> u32
    ensures { result ≡ lock_in book.now door }
{
    if book.len() != 800 || LAST < door {
        return NONE;
    }
    number_at(book, 4 * door as usize)
}
