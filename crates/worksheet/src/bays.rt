// Sets of bays.
ghost use Rattle.std.specs.Prelude.{◌≡◌, ℕ, ◌<◌, ◌≤◌, true, false, ◌==◌, if◌then◌else◌};
ghost use Rattle.codeword.specs.Sums.{count};
ghost use Rattle.worksheet.specs.Lines.{marked};

use rack::sides::MOST_BAYS;
use std::marker::Model;

// A set of bays: a mark for each bay that a rack can have.
#[derive(Drop)]
pub struct BaySet {
    marks: [bool; MOST_BAYS],
}

impl Model for BaySet {
    ghost use Rattle.std.specs.Prelude.{Bool, List};

    ghost Value = { List Bool };

    ghost view = { λ s. s.marks };
}

impl From<[bool; MOST_BAYS]> for BaySet {
    ghost from_gives = { λ marks r. r ≡ marks };

    fn from(marks: [bool; MOST_BAYS]) -> BaySet {
        BaySet { marks }
    }
}

impl BaySet {
    // Whether a bay is in the set; one that no rack has is not.
    pub fn contains(&self, bay: usize) -> bool
        ensures value { result ≡ marked self.now bay }
        ensures beyond { 260 ≤ bay → result ≡ false }
    {
        self.marks.get(bay).copied().unwrap_or(false)
    }

    pub fn insert(&mut self, bay: usize)
        requires { bay < 260 }
        ensures { (b : ℕ) → marked self.new b ≡ (if b == bay then true else marked self.old b) }
    {
        self.marks[bay] = true;
    }

    pub fn remove(&mut self, bay: usize)
        requires { bay < 260 }
        ensures { (b : ℕ) → marked self.new b ≡ (if b == bay then false else marked self.old b) }
    {
        self.marks[bay] = false;
    }

    // How many of the first bays are in the set.
    pub fn count_below(&self, bays: usize) -> usize
        ensures { result ≡ count (marked self.now) bays }
    {
        let marks = &self.marks[..bays.min(MOST_BAYS)];
        marks.iter().filter(|mark| **mark).count()
    }
}
