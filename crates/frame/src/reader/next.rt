// The frames of a file, one after the other.
ghost use Rattle.std.specs.Prelude.{◌≡◌, length};
ghost use Rattle.std.specs.Option.{option_map};
ghost use Rattle.frame.specs.Format.{front};
ghost use Rattle.frame.specs.Reading.{raw, Steps, bytes_left};
ghost use Rattle.std.specs.Iterator.{at_most};

use crate::decode::{decode, number};
use crate::frame::{Frame, HEAD};
use crate::reader::Reader;
use fault::fault::FileFault;

// A frame that is whole, of any kind and with any body.
#[derive(Clone, Copy)]
pub(crate) struct RawFrame<'a> {
    kind: u16,
    body: &'a [u8],
}

// The frame at the front of the bytes, or nothing where its head or its body is cut short.
fn split_front<'a>(bytes: &'a [u8]) -> Option<RawFrame<'a>>
    ensures { option_map raw result ≡ front bytes.now }
{
    let [a, b, c, d, more @ ..] = bytes else {
        return None;
    };
    let length = usize::from(number(*a, *b));
    let body = more.get(..length)?;
    Some(RawFrame {
        kind: number(*c, *d),
        body,
    })
}

// The answer to each frame. A frame that is cut short is the last.
impl<'a> Iterator for Reader<'a> {
    type Item = Result<Frame<'a>, FileFault>;

    ghost next_gives = { Steps };

    ghost remaining = { λ s. at_most (length (bytes_left s)) };

    fn next(&mut self) -> Option<Result<Frame<'a>, FileFault>> {
        let offset = self.offset;
        let bytes = &self.file[offset..];
        if bytes.is_empty() {
            return None;
        }
        let Some(frame) = split_front(bytes) else {
            self.offset = self.file.len();
            return Some(Err(FileFault::CutShort(offset)));
        };
        self.offset = offset + HEAD + frame.body.len();
        Some(decode(frame.kind, frame.body).ok_or(FileFault::BodyLength(offset)))
    }
}
