// Makes the round that is written as text on standard input into a round file on standard output.
#![tactic(auto)]

use anyhow::anyhow;
use std::io::{Read, Write};

fn main(rt: HostRuntime) -> anyhow::Result<()> {
    let mut text = Vec::new(rt.alloc());
    rt.stdin().read_to_end(&mut text)?;
    match composing::compose(rt.alloc(), text.as_slice()) {
        Ok(file) => Ok(rt.stdout().write_all(file.as_slice())?),
        Err(error) => {
            eprintln!(rt; "{error}")?;
            Err(anyhow!("no round file was written"))
        }
    }
}
