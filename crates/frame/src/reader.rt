// A reader of a round file, at the frame that comes next.
ghost use Rattle.std.specs.Prelude.{◌≡◌, ◌≤◌, length};

pub mod next;

#[derive(Drop)]
pub struct Reader<'a> {
    file: &'a [u8],
    // Where the next frame begins.
    offset: usize,
    ghost within: { offset ≤ length file.now },
}

impl<'a> Reader<'a> {
    ghost use Rattle.frame.specs.Reading.{file_of};

    pub fn new(file: &'a [u8]) -> Reader<'a>
        ensures file { file_of result ≡ file.now }
        ensures start { result.offset ≡ 0 }
    {
        Reader { file, offset: 0 }
    }

    // Where the next frame begins.
    pub fn offset(&self) -> usize
        ensures { result ≡ self.now.offset }
    {
        self.offset
    }
}
