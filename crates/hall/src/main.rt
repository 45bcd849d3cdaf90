// Plays the round file on standard input, and prints a line for each frame.
#![tactic(auto)]

fn main(rt: HostRuntime) -> anyhow::Result<()> {
    let file = input::read_round(rt.alloc(), rt.stdin())?;
    let text = play::play(rt.alloc(), file.as_slice())?;
    rt.print(text)?;
    Ok(())
}
