// What the frames of a round file say.
pub use call::Call;

// The bytes of a frame before its body: two of length and two of kind.
pub(crate) const HEAD: usize = 4;

// The longest text of a note, in bytes.
pub const LONGEST_NOTE: usize = 60;

// The longest body that two bytes of length can speak of.
pub const LONGEST_BODY: usize = 65_535;

// A frame with a body of the right length. A note and a frame of an unknown kind borrow their body from the file.
#[derive(Clone, Copy, Debug)]
pub enum Frame<'a> {
    // Opens a bank with so many items and lines over the field with so many elements.
    Start { items: u16, lines: u16, field: u16 },
    Call(Call),
    Note(&'a [u8]),
    Unknown { kind: u16, body: &'a [u8] },
}
