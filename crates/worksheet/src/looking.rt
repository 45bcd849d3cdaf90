// A look at the bays of a rack, from the top one down, until enough of them are found present.
ghost use Rattle.std.specs.Prelude.{◌≡◌, ◌+◌, ◌%◌, ◌<◌, ◌≤◌, Some, None, if◌then◌else◌};
ghost use Rattle.codeword.specs.Codeword.{words as count_words};
ghost use Rattle.worksheet.specs.Present.{present};
ghost use Rattle.worksheet.specs.Lines.{marked, word_at};
ghost use Rattle.worksheet.specs.Looking.{Surveyed};

use crate::bays::BaySet;
use extension::Ext;
use field::{BaseField, Field};
use rack::sides::{MOST_BAYS, Reading};

// A rack's word as a count word: its remainder by q·q.
pub fn count_word<F: BaseField>(word: u16) -> u16
    ensures { result ≡ word % count_words F.Field.structure }
{
    (word as u32 % Ext::<F>::order()) as u16
}

// The word of a bay in a line, if the bay is present: one read, and none where the bay is behind.
pub fn present_word<F: BaseField, R: Reading>(
    rack: &mut R,
    behind: &BaySet,
    bay: usize,
    line: usize,
) -> Option<u16>
    requires bay { bay < (R.Reading.meaning rack.old).bays }
    requires line { line < (R.Reading.meaning rack.old).lines }
    ensures word { result ≡ (if present (R.Reading.meaning rack.old).switch (marked behind.now) bay then Some (word_at F.Field.structure (R.Reading.meaning rack.old) line bay) else None) }
    ensures after { R.Reading.meaning rack.new ≡ R.Reading.meaning rack.old }
{
    if behind.contains(bay) {
        return None;
    }
    rack.read(bay, line).ok().map(|word| count_word::<F>(word))
}

// The words of the present bays from the top one down, until there is one for each item. No bay is asked that is behind,
// and none after that.
pub(crate) fn survey<F: BaseField, R: Reading>(
    rack: &mut R,
    behind: &BaySet,
    line: usize,
    items: usize,
) -> [Option<u16>; MOST_BAYS]
    requires bays { (R.Reading.meaning rack.old).bays ≡ items + 4 }
    requires few { items + 4 ≤ 260 }
    requires line { line < (R.Reading.meaning rack.old).lines }
    ensures found { Surveyed items (present (R.Reading.meaning rack.old).switch (marked behind.now)) (word_at F.Field.structure (R.Reading.meaning rack.old) line) result }
    ensures after { R.Reading.meaning rack.new ≡ R.Reading.meaning rack.old }
{
    let mut found = [None; MOST_BAYS];
    let mut wanted = items;
    // No chain: its closure would hold the rack for writing, and no clause would say what it gave.
    for bay in (0..items + 4).rev() {
        if wanted > 0 {
            if let Some(word) = present_word::<F, R>(rack, behind, bay, line) {
                found[bay] = Some(word);
                wanted -= 1;
            }
        }
    }
    found
}
