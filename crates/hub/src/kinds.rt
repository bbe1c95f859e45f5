// What a party is to the house. A record keeps a byte for each party, and it may be any byte: an opening alone asks
// whether it is one of these.

#[derive(Clone, Copy, PartialEq, Eq, Debug)]
pub enum Kind {
    Desk = 0,
    Door = 1,
    Replacement = 2,
    BatteryRound = 3, // its waits may not be cancelled
}
