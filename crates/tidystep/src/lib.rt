// One turn of the tidying, its two loops made one: it skips first, then it retires. What is stored and what is left is
// decided here, so that a loop in place has one way through its body and one way out.

#![tactic(auto)]

ghost use Rattle.std.specs.Prelude.{◌≡◌, ◌<◌, ◌≤◌};
ghost use Rattle.tidystep.specs.Step.{may_skip, tidy_step};

use hub::record::{Hub, Place, PlaceSlot};
use hub::slots::{empty_seat, with_place};
use transition::tidy::{can_retire, can_skip};

// How far the tidying is, and what it may still do.
#[derive(Clone, Copy)]
pub struct Tidying {
    pub resumed: u32, // the next ticket to resume
    pub oldest: u32,
    pub skips: u32, // so many more it may skip
    pub retires: u32, // and retire; none once there is nothing more to do
}

// What a turn stores, and what is left after it.
#[derive(Clone, Copy)]
pub struct TidyStep {
    pub ticket: u32, // whose place is stored
    pub seat: PlaceSlot,
    pub left: Tidying,
}

impl Tidying {
    // May it skip the next ticket to resume, whose place is `ahead`? The place is asked before the turns that are left,
    // since mostly it is not cancelled.
    fn may_skip(self, ahead: PlaceSlot) -> bool
        requires { self.oldest ≤ 1000256 }
        ensures { result ≡ may_skip ahead self }
    {
        can_skip(ahead, self.resumed, self.oldest + Hub::PLACES) && 0 < self.skips
    }

    // `ahead` is the place of the next ticket to resume, `behind` that of the oldest.
    pub fn step(self, ahead: PlaceSlot, behind: PlaceSlot) -> TidyStep
        requires { (self.oldest ≤ 1000256) × (0 < self.retires) }
        ensures { result ≡ tidy_step ahead behind self }
    {
        if self.may_skip(ahead) {
            return TidyStep {
                ticket: self.resumed,
                seat: with_place(Place::Done, ahead),
                left: Tidying {
                    resumed: self.resumed + 1,
                    skips: self.skips - 1,
                    ..self
                },
            };
        }
        if can_retire(behind) {
            return TidyStep {
                ticket: self.oldest,
                seat: empty_seat(),
                left: Tidying {
                    oldest: self.oldest + 1,
                    skips: 0,
                    retires: self.retires - 1,
                    ..self
                },
            };
        }
        TidyStep {
            ticket: self.oldest,
            seat: behind,
            left: Tidying {
                skips: 0,
                retires: 0,
                ..self
            },
        }
    }
}
