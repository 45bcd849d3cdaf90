// Lists the frames of the round file on standard input.
#![tactic(auto)]

fn main(rt: HostRuntime) -> anyhow::Result<()> {
    let file = input::read_round(rt.alloc(), rt.stdin())?;
    let text = listing::list(rt.alloc(), file.as_slice())?;
    rt.print(text)?;
    Ok(())
}
