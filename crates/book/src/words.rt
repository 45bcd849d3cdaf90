// The words of a line, set on the worksheet and sent to the rack.
ghost use Rattle.std.specs.Prelude.{◌≡◌, ◌+◌, ◌<◌, ◌≤◌, length, nat_eq, slice_index};
ghost use Rattle.field.specs.Structure.{size};
ghost use Rattle.codeword.specs.Codeword.{words};
ghost use Rattle.rules.specs.Effects.{concerned};
ghost use Rattle.book.specs.Known.{knows};
ghost use Rattle.book.specs.Sending.{Sent, Revised};

use crate::book::Book;
use field::{BaseField, Field};
use line_code::encode;
use rack::sides::{Reading, Serving};

// Sets an item of the line whose codeword is on the worksheet, and the check words with it.
pub(crate) fn set_item<F: BaseField>(sheet: &mut [u16], items: usize, item: usize, word: u16)
    requires item { item < items }
    requires few { items ≤ size F.Field.structure }
    requires wide { items + 4 ≤ length sheet.old }
    requires word { word < words F.Field.structure }
    ensures revised { Revised F.Field.structure items item word sheet.old sheet.new }
    ensures long { length sheet.new ≡ length sheet.old }
{
    sheet[item + 4] = word;
    let mut checks = [0; 4];
    // The words of a codeword are not refused, and of other words nothing is promised.
    let _ = encode::<F>(&sheet[4..items + 4], &mut checks);
    sheet[..4].copy_from_slice(&checks);
}

impl<F: BaseField> Book<F> {
    // Gives a bay its word of a line, unless it is behind. One that is silent is behind from now on.
    pub(crate) fn send<R: Serving>(&mut self, rack: &mut R, bay: usize, line: usize, word: u16)
        requires few { bay < 260 }
        requires bay { bay < (R.Reading.meaning rack.old).bays }
        requires line { line < (R.Reading.meaning rack.old).lines }
        ensures { Sent (knows self.old) (R.Reading.meaning rack.old) (λ b. nat_eq b bay) line (λ _. word) (knows self.new) (R.Reading.meaning rack.new) }
    {
        if self.behind.contains(bay) {
            return;
        }
        if rack.write(bay, line, word).is_err() {
            self.behind.insert(bay);
        }
    }

    // Gives the bays that a post to an item concerns their words of the line on the worksheet.
    pub(crate) fn send_line<R: Serving>(
        &mut self,
        rack: &mut R,
        sheet: &[u16],
        item: usize,
        line: usize,
    )
        requires item { item + 4 < length sheet.now }
        requires few { item + 4 < 260 }
        requires bay { item + 4 < (R.Reading.meaning rack.old).bays }
        requires line { line < (R.Reading.meaning rack.old).lines }
        ensures { Sent (knows self.old) (R.Reading.meaning rack.old) (concerned item) line (λ b. slice_index sheet.now b) (knows self.new) (R.Reading.meaning rack.new) }
    {
        for (bay, word) in sheet[..4].iter().enumerate() {
            self.send(rack, bay, line, *word);
        }
        self.send(rack, item + 4, line, sheet[item + 4]);
    }
}
