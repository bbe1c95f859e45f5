// The door book: which lock stands at each of 200 doors. Replacing a lock is a frame of ten bytes,
// which the book enters or refuses. It stands apart from the hub. Here is the book of locks; `doorbytes` has it as bytes.

#![tactic(auto)]

ghost use Rattle.std.specs.Prelude.{◌+◌, ◌<◌, ◌≤◌, ◌≡◌, IfOk, length};
ghost use Rattle.doorbook.specs.Book.{admitted, after, answer_to, code_of, empty_book, lock_at};
ghost use Rattle.doorbook.specs.Book.{replacement_in};
ghost use Rattle.doorbook.specs.Frame.{is_frame, number_at};

pub const LAST: u8 = 199; // the highest door

pub const NONE: u32 = 0; // stands at a door without a lock

const ENTERED: u8 = 0x41; // answers a frame that is entered

// Why a frame is refused, by its number: the first that applies.
#[derive(Clone, Copy, PartialEq, Eq, Debug)]
pub enum Refusal {
    Malformed = 12, // another length or code
    NoSuchDoor = 19, // the door is above 199
    NotNew = 20, // the new lock is 0, or stands at a door
    NotThere = 21, // the superseded lock is not the one at the door
}

// What a frame asks for: a lock at a door, in place of another.
#[derive(Clone, Copy, PartialEq, Eq, Debug)]
pub struct Replacement {
    pub door: u8,
    pub lock: u32,
    pub superseded: u32,
}

// The locks of the doors 0 to 199, 0 for none.
#[derive(Clone, Copy)]
pub struct Book {
    pub locks: [u32; 200],
}

// The number in the four bytes from here on, the high byte first.
pub fn number_at(bytes: &[u8], at: usize) -> u32
    requires { at + 4 ≤ length bytes.now }
    ensures { result ≡ number_at bytes.now at }
{
    u32::from_be_bytes([bytes[at], bytes[at + 1], bytes[at + 2], bytes[at + 3]])
}

pub fn is_frame(frame: &[u8]) -> bool
    ensures { result ≡ is_frame frame.now }
{
    frame.len() == 10 && frame[0] == 0x40
}

impl Replacement {
    // Of a frame, with a door that there is.
    pub fn read(frame: &[u8]) -> Result<Replacement, Refusal>
        ensures value { result ≡ replacement_in frame.now }
        ensures door { IfOk result (λ r. r.door < 200) }
    {
        if !is_frame(frame) {
            return Err(Refusal::Malformed);
        }
        let door = frame[1];
        if LAST < door {
            return Err(Refusal::NoSuchDoor);
        }
        Ok(Replacement {
            door,
            lock: number_at(frame, 2),
            superseded: number_at(frame, 6),
        })
    }

    // May it be entered? `stands` says whether the new lock stands at any door, `there` is the one at its own.
    pub fn admit(&self, stands: bool, there: u32) -> Result<(), Refusal>
        ensures { result ≡ admitted self.now stands there }
    {
        if self.lock == NONE || stands {
            return Err(Refusal::NotNew);
        }
        if self.superseded != there {
            return Err(Refusal::NotThere);
        }
        Ok(())
    }
}

impl Book {
    pub fn empty() -> Book
        ensures { result.locks ≡ empty_book }
    {
        Book { locks: [NONE; 200] }
    }

    // The lock at a door: 0 if none or the door is above 199, as the request has it (`lock_at`).
    #[tactic(auto, unfolding(crate::specs::Book::lock_at))]
    pub fn lock(&self, door: u8) -> u32
        ensures { result ≡ lock_at self.now.locks door }
    {
        *self.locks.get(door as usize).unwrap_or(&NONE)
    }

    // A frame is entered, or refused and the book left alone.
    #[tactic(auto, unfolding(crate::specs::Book::after, crate::specs::Book::answer_to, crate::specs::Book::lock_at, crate::specs::Book::stands))]
    pub fn enter(&mut self, frame: &[u8]) -> Result<(), Refusal>
        ensures answer { result ≡ answer_to self.old.locks frame.now }
        ensures book { self.new.locks ≡ after self.old.locks frame.now }
    {
        let new = Replacement::read(frame)?;
        let door = new.door as usize;
        let stands = new.lock != NONE && self.locks.contains(&new.lock); // no search for a lock that is none
        new.admit(stands, self.locks[door])?;
        self.locks[door] = new.lock;
        Ok(())
    }
}

// An answer as one byte: 41, or the refusal's number.
pub fn code(answer: Result<(), Refusal>) -> u8
    ensures { result ≡ code_of answer }
{
    match answer {
        Ok(()) => ENTERED,
        Err(why) => why as u8,
    }
}
