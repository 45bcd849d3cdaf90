// The calls to a bank, with the numbers that they are made with.
#![tactic(auto)]

#[derive(Clone, Copy, PartialEq, Eq, Debug)]
pub enum Call {
    Post { item: u16, line: u16, word: u16 },
    Get { item: u16, line: u16 },
    Off { bay: u16 },
    On { bay: u16 },
    Release { bay: u16 },
    Seat,
    Mend { bay: u16 },
}
