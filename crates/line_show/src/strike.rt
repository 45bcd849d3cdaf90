// Striking out sets of bays of a codeword, and restoring it.
use field::{BaseField, Field};
use std::alloc::{AllocError, Global};

// How many sets were struck out, and after how many of them the codeword came back whole.
#[derive(Clone, Copy, Default)]
pub(crate) struct Tally {
    pub sets: u64,
    pub whole: u64,
}

// Whether the codeword comes back when the marked bays are absent; `work` has room for its words.
fn comes_back<F: BaseField>(codeword: &[u16], marks: &[u8], work: &mut [u16]) -> bool {
    for ((word, known), mark) in work.iter_mut().zip(codeword).zip(marks) {
        *word = if *mark == 0 { *known } else { u16::MAX };
    }
    restore::restore::<F>(work, marks).is_ok() && *work == *codeword
}

// A codeword, room for its words while some are absent, and the tally of the sets that were struck out.
#[derive(Drop)]
struct Trials<'a> {
    codeword: &'a [u16],
    work: Vec<u16>,
    tally: Tally,
}

impl<'a> Trials<'a> {
    // Restores the codeword without the marked bays, and without each set of at most so many more of them below `end`. The walk takes
    // no closure for what is done with a set: that the closure may be called again after the sets below it was not proved.
    fn strike_below<F: BaseField>(&mut self, marks: &mut [u8], end: usize, more: u8) {
        self.tally.sets = self.tally.sets.saturating_add(1);
        if comes_back::<F>(self.codeword, marks, self.work.as_mut_slice()) {
            self.tally.whole = self.tally.whole.saturating_add(1);
        }
        if more == 0 {
            return;
        }
        // By index: while the bay is marked, all marks are lent to the sets below it.
        for bay in 0..end.min(marks.len()) {
            marks[bay] = 1;
            self.strike_below::<F>(marks, bay, more - 1);
            marks[bay] = 0;
        }
    }
}

// How many bays at most are struck out together, so that lines of any length take a moment.
pub(crate) fn most_absent(bays: usize) -> u8 {
    match bays {
        0..=28 => 4,
        29..=64 => 3,
        _ => 2,
    }
}

// Restores the codeword without each set of at most so many of its bays.
pub(crate) fn strike_out<F: BaseField>(
    alloc: Global,
    codeword: &[u16],
    most: u8,
) -> Result<Tally, AllocError> {
    let bays = codeword.len();
    let mut marks = vec![in alloc; 0u8; bays]?;
    let mut trials = Trials {
        codeword,
        work: vec![in alloc; 0u16; bays]?,
        tally: Tally::default(),
    };
    trials.strike_below::<F>(marks.as_mut_slice(), bays, most);
    Ok(trials.tally)
}
