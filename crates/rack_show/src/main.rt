// Three plain racks joined into one, served, and listed line by line.
#![tactic(auto)]

mod hall;
mod show;

use crate::hall::{join_unlike, make_hall, words};
use crate::show::{Word, ok, show_answer, show_rack};
use fault::fault::Fault;
use plain_rack::parts::PlainRack;
use rack::sides::{Reading, Serving};
use std::io;

// Calls that are accepted.
fn serve<R: Serving>(rt: &HostRuntime, rack: &mut R) -> io::Result<()> {
    show_answer(rt, "off 1", rack.off(1).map(ok))?;
    show_answer(rt, "write 4 2 7", rack.write(4, 2, 7).map(ok))?;
    show_answer(rt, "exchange 5", rack.exchange(5).map(ok))?;
    show_answer(rt, "off 3", rack.off(3).map(ok))
}

// Calls that are refused.
fn misuse<R: Serving>(rt: &HostRuntime, rack: &mut R) -> io::Result<()> {
    for (bay, line) in [(6, 0), (0, 3), (3, 0)] {
        let answer = rack.read(bay, line).map(Word);
        show_answer(rt, format_args!("read {bay} {line}"), answer)?;
    }
    show_answer(rt, "write 1 0 9", rack.write(1, 0, 9).map(ok))?;
    show_answer(rt, "on 260", rack.on(260).map(ok))
}

// The rack before it is served and after.
fn show_serving<R: Serving>(rt: &HostRuntime, rack: &mut R) -> anyhow::Result<()> {
    show_rack(rt, rack)?;
    serve(rt, rack)?;
    show_rack(rt, rack)?;
    misuse(rt, rack)?;
    show_answer(rt, "on 1", rack.on(1).map(ok))?;
    Ok(())
}

// Whether plain racks can be made: one that can, and three that cannot.
fn show_shapes(rt: &HostRuntime) -> io::Result<()> {
    for (bays, lines, words) in [
        (260, 64, 16_640),
        (261, 64, 16_704),
        (260, 65, 16_900),
        (2, 3, 5),
    ] {
        let answer = PlainRack::check(bays, lines, words).map(ok);
        show_answer(
            rt,
            format_args!("{bays} bays and {lines} lines over {words} words"),
            answer,
        )?;
    }
    Ok(())
}

fn main(rt: HostRuntime) -> anyhow::Result<()> {
    let a = words(rt.alloc(), 100)?;
    let b = words(rt.alloc(), 200)?;
    let c = words(rt.alloc(), 300)?;
    let mut hall = make_hall(a, b, c).map_err(Fault::from)?;
    show_serving(&rt, &mut hall)?;
    let mut lent = &mut hall;
    show_rack(&rt, &mut lent)?;
    show_shapes(&rt)?;
    let a = words(rt.alloc(), 100)?;
    let b = words(rt.alloc(), 200)?;
    show_answer(&rt, "join 3 lines to 2", join_unlike(a, b).map(ok))?;
    Ok(())
}
