// Bytes parted at a mark.
ghost use Rattle.std.specs.Prelude.{◌≡◌};
ghost use Rattle.parsing.specs.Splits.{front_of, back_of, back as behind};

// What stands before the first mark, and what stands behind it, if there is a mark.
#[derive(Clone, Copy)]
pub struct Parts<'a> {
    pub front: &'a [u8],
    pub back: Option<&'a [u8]>,
}

pub fn split<'a>(bytes: &'a [u8], mark: u8) -> Parts<'a>
    ensures front { result.front.now ≡ front_of mark bytes.now }
    ensures back { behind result ≡ back_of mark bytes.now }
{
    match bytes.iter().position(|byte| *byte == mark) {
        Some(i) => Parts {
            front: &bytes[..i],
            back: Some(&bytes[i + 1..]),
        },
        None => Parts {
            front: bytes,
            back: None,
        },
    }
}
