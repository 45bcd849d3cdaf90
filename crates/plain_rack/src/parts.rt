// What a plain rack holds.
ghost use Rattle.std.specs.Prelude.{◌≡◌, ◌*◌, ◌≤◌, vec_len};
ghost use Rattle.rack.specs.Meaning.{most_bays, most_lines};

use rack::sides::MOST_BAYS;

// Sizes that a plain rack may have: the value that shows an accepted check.
#[derive(Clone, Copy)]
pub struct PlainShape {
    pub(crate) bays: usize,
    pub(crate) lines: usize,
    ghost some_bays: { 1 ≤ bays },
    ghost few_bays: { bays ≤ most_bays },
    ghost some_lines: { 1 ≤ lines },
    ghost few_lines: { lines ≤ most_lines },
}

// A rack over the words that it was passed, one for each bay and line. Its switches are an array, since its making must not
// fail for want of memory. It has no model but `meaning`: that holds functions, which the value of a model may not.
#[derive(Drop)]
pub struct PlainRack {
    pub(crate) shape: PlainShape,
    pub(crate) switches: [bool; MOST_BAYS],
    pub(crate) words: Vec<u16>,
    ghost full: { vec_len words ≡ shape.bays * shape.lines },
}
