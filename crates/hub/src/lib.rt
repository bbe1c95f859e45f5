// The link hub of one house: a fair, abortable semaphore over a ring of waiting places.
// The papers that it is built from are documents 01 and 02; specs/ has their definitions, and every contract
// here cites one of them.

#![tactic(auto)]

pub mod record; // the record of a hub: phases, places, figures
pub mod slots; // what the record keeps of a party and of a place
pub mod answers; // what a call answers
pub mod moves; // a call, and what it looks at
pub mod kinds; // what a party is to the house
pub mod opening; // a fresh record

pub use answers::{Answer, Refusal};
pub use kinds::Kind;
pub use moves::{Call, Op};
pub use opening::Opening;
pub use record::{Control, Figures, Hub, Outcome, PartySlot, Phase, Place, PlaceSlot, Pool};
