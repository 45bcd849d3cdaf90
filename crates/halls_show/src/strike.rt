// Every set of four dead bays of a hall of twelve.
use crate::halls::Counts;
use anyhow::Context;
use book::Book;
use extension::Gf16;
use fault::fault::Fault;
use plain_rack::parts::PlainRack;
use rack::sides::Serving;

// Lets so many more of the bays below `end` die, in every way, and has each rack visited.
fn strike_below<V: FnMut(&mut PlainRack)>(rack: &mut PlainRack, end: usize, more: u8, visit: &mut V)
    requires { (state : V) (x : _) → V.pre state x }
{
    if more == 0 {
        visit(rack);
        return;
    }
    for bay in 0..end {
        let _ = rack.off(bay);
        strike_below(rack, bay, more - 1, visit);
        let _ = rack.on(bay);
    }
}

pub(crate) fn show_every_set(rt: &HostRuntime) -> anyhow::Result<()> {
    let counts = Counts {
        items: 12,
        lines: 1,
        mask: 255,
    };
    let mut rack = PlainRack::zeros(rt.alloc(), 16, 1)?;
    let mut sheet = [0; 16];
    let mut book = Book::<Gf16>::start(&mut rack, 12)
        .map_err(Fault::from)
        .context("the hall of 12 did not start")?;
    let taken = counts.fill(&mut book, &mut rack, &mut sheet);
    let mut sets: u32 = 0;
    let mut whole: u32 = 0;
    strike_below(
        &mut rack,
        16,
        4,
        &mut |rack: &mut PlainRack| {
            sets = sets.saturating_add(1);
            if counts.right(&book, rack, &mut sheet) == 12 {
                whole = whole.saturating_add(1);
            }
        },
    );
    println!(rt;
        "a hall of 12 items: {taken} posts, and of {sets} sets of four dead bays {whole} gave every count"
    )?;
    Ok(())
}
