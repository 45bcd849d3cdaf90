// What a joined rack holds.
ghost use Rattle.joined_rack.specs.Join.{Joinable};

use rack::sides::Reading;

// The bays of the second rack come after those of the first. Only racks that can be joined are.
#[derive(Drop)]
pub struct JoinedRack<F: Reading, S: Reading> {
    pub(crate) first: F,
    pub(crate) second: S,
    ghost joinable: { Joinable (F.Reading.meaning first) (S.Reading.meaning second) },
}

// A bay of the first rack or of the second, by its number there.
#[derive(Clone, Copy)]
pub enum Part {
    First(usize),
    Second(usize),
}
