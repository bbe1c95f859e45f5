// Whole operations on a hub at rest: what a clerk asks for, and what it comes to.

#![tactic(auto)]

use hub::answers::Answer;
use hub::record::Hub;

// What an operation answers, whom it woke, how many steps it took, and the record that it leaves. FF for nobody is the
// number that `ScreenShows` and `WritesShown` speak of.
#[derive(Clone, Copy)]
pub struct Operated {
    pub answer: Answer, // of the call: accepted (20) or refused
    pub woken: u32, // FF if nobody was
    pub steps: u32,
    pub hub: Hub,
}

// What is told of an operation: all of that but the record.
#[derive(Clone, Copy)]
pub struct Told {
    pub answer: Answer,
    pub woken: u32,
    pub steps: u32,
}
