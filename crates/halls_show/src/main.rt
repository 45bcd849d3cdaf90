// Larger halls that lose four bays, and lines whose check words another program worked out.
#![tactic(auto)]

mod halls;
mod strike;
mod vectors;

use crate::halls::show_largest;
use crate::strike::show_every_set;
use crate::vectors::show_vectors;

fn main(rt: HostRuntime) -> anyhow::Result<()> {
    show_vectors(&rt)?;
    show_every_set(&rt)?;
    show_largest(&rt)
}
