// The book with a closed drawer, and the calls that it offers.
ghost use Rattle.std.specs.Prelude.{◌≡◌, ◌≤◌, false, length, Some, OnOk, OnErr, IfOk, IfErr};
ghost use Rattle.field.specs.Structure.{size};
ghost use Rattle.fault.specs.Refusing.{refusal_of};
ghost use Rattle.codeword.specs.Codeword.{words};
ghost use Rattle.rack.specs.Meaning.{InRange};
ghost use Rattle.rules.specs.Known.{front_of};
ghost use Rattle.book.specs.Known.{knows};
ghost use Rattle.book.specs.Mending.{Ready};
ghost use Rattle.book.specs.Reasons.{why_sheet};
ghost use Rattle.rules.specs.Rules.{why_cell, why_get, why_post, why_mend, why_seat};
ghost use Rattle.rules.specs.Effects.{Got, Posted, Mended};

use crate::words::set_item;
use extension::Ext;
use fault::fault::{BookFault, Fault};
use field::{BaseField, Field};
use rack::sides::{Reading, Serving};
use std::marker::{Model, PhantomData};
use worksheet::{BaySet, present_word, restore_line};

// What is known of a hall's rack besides its words.
#[derive(Drop)]
pub struct Book<F: BaseField> {
    pub(crate) items: usize,
    pub(crate) lines: usize,
    // The bays that are behind: their words may not be those of the posted lines.
    pub(crate) behind: BaySet,
    pub(crate) field: PhantomData<F>,
}

impl<F: BaseField> Model for Book<F> {
    ghost use Rattle.field.specs.Structure.{size as elements};
    ghost use Rattle.book.specs.Kept.{Kept, Fits};

    ghost Value = { Kept };

    ghost view = { λ b. record { items = b.items; lines = b.lines; behind = b.behind } };

    ghost invariant = { λ b. Fits (elements F.Field.structure) b.items };
}

impl<F: BaseField> Book<F> {
    // How many items the book has, N.
    pub fn items(&self) -> usize
        ensures value { result ≡ (knows self.now).items }
        ensures some { 1 ≤ result }
        ensures few { result ≤ size F.Field.structure }
    {
        self.items
    }

    // Whether a bay is behind.
    pub fn is_behind(&self, bay: usize) -> bool
        ensures value { result ≡ (knows self.now).behind bay }
        ensures beyond { 260 ≤ bay → result ≡ false }
        ensures some { 1 ≤ (knows self.now).items }
        ensures few { (knows self.now).items ≤ size F.Field.structure }
    {
        self.behind.contains(bay)
    }

    // Whether the rack is the book's, by its numbers of bays and lines.
    pub(crate) fn admit_rack<R: Reading>(&self, rack: &mut R) -> Result<(), BookFault>
        ensures refused { refusal_of result ≡ why_seat (knows self.now) (front_of (R.Reading.meaning rack.old)) }
        ensures ranges { InRange (R.Reading.meaning rack.old) }
        ensures after { R.Reading.meaning rack.new ≡ R.Reading.meaning rack.old }
    {
        let bays = rack.bays();
        if bays != self.items + 4 || rack.lines() != self.lines {
            return Err(BookFault::OtherRack(bays));
        }
        Ok(())
    }

    // Whether the rack is the book's, and the worksheet long enough.
    fn admit_sheet<R: Reading>(&self, rack: &mut R, room: usize) -> Result<(), BookFault>
        ensures refused { refusal_of result ≡ why_sheet (knows self.now) (front_of (R.Reading.meaning rack.old)) room }
        ensures ranges { InRange (R.Reading.meaning rack.old) }
        ensures after { R.Reading.meaning rack.new ≡ R.Reading.meaning rack.old }
    {
        self.admit_rack(rack)?;
        if room < self.items + 4 {
            return Err(BookFault::ListLength(room));
        }
        Ok(())
    }

    // Whether the numbers of a get or a post are good.
    fn admit_cell<R: Reading>(
        &self,
        rack: &mut R,
        room: usize,
        item: usize,
        line: usize,
    ) -> Result<(), BookFault>
        ensures refused { refusal_of result ≡ why_cell (knows self.now) (front_of (R.Reading.meaning rack.old)) room item line }
        ensures ranges { InRange (R.Reading.meaning rack.old) }
        ensures after { R.Reading.meaning rack.new ≡ R.Reading.meaning rack.old }
    {
        self.admit_sheet(rack, room)?;
        if item >= self.items {
            return Err(BookFault::NoItem(item));
        }
        if line >= self.lines {
            return Err(BookFault::NoLine(line));
        }
        Ok(())
    }

    // The rack and the worksheet stay apart here and below: a struct of two borrows would be made anew for each call.
    // The word of an item in a line: from its own bay where that is present, which is one read, otherwise from the restored line.
    pub fn get<R: Reading>(
        &self,
        rack: &mut R,
        sheet: &mut [u16],
        item: usize,
        line: usize,
    ) -> Result<u16, BookFault>
        ensures refused { refusal_of result ≡ why_get (knows self.now) (front_of (R.Reading.meaning rack.old)) (length sheet.old) item line }
        ensures gives { IfOk result (Got F.Field.structure (knows self.now) (R.Reading.meaning rack.old) item line) }
        ensures sheet_kept { OnErr result (sheet.new ≡ sheet.old) }
        ensures long { length sheet.new ≡ length sheet.old }
        ensures after { R.Reading.meaning rack.new ≡ R.Reading.meaning rack.old }
    {
        self.admit_cell(rack, sheet.len(), item, line)?;
        let bay = item + 4;
        if let Some(word) = present_word::<F, R>(rack, &self.behind, bay, line) {
            return Ok(word);
        }
        restore_line::<F, R>(rack, &self.behind, sheet, line)?;
        Ok(sheet[bay])
    }

    // Sets the item's word in the restored line. Of the four check bays and the item's own bay, each present one is given
    // that line's word, and each silent one is behind from now on.
    pub fn post<R: Serving>(
        &mut self,
        rack: &mut R,
        sheet: &mut [u16],
        item: usize,
        line: usize,
        word: u16,
    ) -> Result<(), BookFault>
        ensures refused { refusal_of result ≡ why_post (words F.Field.structure) (knows self.old) (front_of (R.Reading.meaning rack.old)) (length sheet.old) item line word }
        ensures posted { OnOk result (Posted F.Field.structure (knows self.old) (R.Reading.meaning rack.old) item line word (knows self.new) (R.Reading.meaning rack.new)) }
        ensures book_kept { OnErr result (self.new ≡ self.old) }
        ensures rack_kept { OnErr result (R.Reading.meaning rack.new ≡ R.Reading.meaning rack.old) }
        ensures sheet_kept { OnErr result (sheet.new ≡ sheet.old) }
        ensures long { length sheet.new ≡ length sheet.old }
    {
        self.admit_cell(rack, sheet.len(), item, line)?;
        if word as u32 >= Ext::<F>::order() {
            return Err(BookFault::WordTooLarge(word as usize));
        }
        restore_line::<F, R>(rack, &self.behind, sheet, line)?;
        set_item::<F>(sheet, self.items, item, word);
        self.send_line(rack, sheet, item, line);
        Ok(())
    }

    // Whether a bay may be mended, as far as its lines do not tell: it is behind, and answers.
    fn admit_bay<R: Reading>(&self, rack: &mut R, room: usize, bay: usize) -> Result<(), Fault>
        ensures ready { OnOk result (Ready (knows self.now) (R.Reading.meaning rack.old) bay room) }
        ensures refused { IfErr result (λ f. why_mend (knows self.now) (front_of (R.Reading.meaning rack.old)) room bay ≡ Some f) }
        ensures after { R.Reading.meaning rack.new ≡ R.Reading.meaning rack.old }
    {
        self.admit_sheet(rack, room)?;
        if bay >= self.items + 4 {
            return Err(BookFault::NoBay(bay).into());
        }
        if !self.is_behind(bay) {
            return Err(BookFault::NotBehind(bay).into());
        }
        rack.read(bay, 0)?;
        Ok(())
    }

    // Writes the restored words to every line of a bay that answers and is behind; then it is behind no more.
    pub fn mend<R: Serving>(
        &mut self,
        rack: &mut R,
        sheet: &mut [u16],
        bay: usize,
    ) -> Result<(), Fault>
        ensures refused { refusal_of result ≡ why_mend (knows self.old) (front_of (R.Reading.meaning rack.old)) (length sheet.old) bay }
        ensures mended { OnOk result (Mended F.Field.structure (knows self.old) (R.Reading.meaning rack.old) bay (knows self.new) (R.Reading.meaning rack.new)) }
        ensures book_kept { OnErr result (self.new ≡ self.old) }
        ensures rack_kept { OnErr result (R.Reading.meaning rack.new ≡ R.Reading.meaning rack.old) }
        ensures sheet_kept { OnErr result (sheet.new ≡ sheet.old) }
        ensures long { length sheet.new ≡ length sheet.old }
    {
        self.admit_bay(rack, sheet.len(), bay)?;
        for line in 0..self.lines {
            restore_line::<F, R>(rack, &self.behind, sheet, line)?;
            rack.write(bay, line, sheet[bay])?;
        }
        self.behind.remove(bay);
        Ok(())
    }
}
