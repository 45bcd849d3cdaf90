// The worked run of a bank, and the limits of its sizes, words and absent bays.
#![tactic(auto)]

mod limits;
mod worked;

use crate::limits::show_limits;
use crate::worked::show_worked;

fn main(rt: HostRuntime) -> anyhow::Result<()> {
    show_worked(&rt)?;
    show_limits(&rt)
}
