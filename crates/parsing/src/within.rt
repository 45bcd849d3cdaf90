// Bytes in a range.
ghost use Rattle.std.specs.Prelude.{◌≡◌};
ghost use Rattle.parsing.specs.Splits.{within};

// Whether each byte lies from the low one to the high one.
pub(crate) fn all_within(bytes: &[u8], low: u8, high: u8) -> bool
    ensures { result ≡ within low high bytes.now }
{
    bytes.iter().all(|byte| low <= *byte && *byte <= high)
}
