// The round file of a program: what stands on its standard input, up to a limit.
#![tactic(auto)]

ghost use Rattle.std.specs.Prelude.{◌≤◌, IfOk, vec_len};

use std::alloc::Global;
use std::io;
use std::io::Read;

// A round file is cut after so many bytes.
pub const LONGEST_FILE: usize = 32_768;

// The bytes of a round file, cut at the limit.
pub fn read_round<R: Read + Drop>(heap: Global, reader: R) -> io::Result<Vec<u8>>
    ensures { IfOk result (λ file. vec_len file ≤ 32768) }
{
    let mut file = Vec::new(heap);
    reader.take(LONGEST_FILE as u64).read_to_end(&mut file)?;
    // No more than that came; `take` only does not promise it.
    file.truncate(LONGEST_FILE);
    Ok(file)
}
