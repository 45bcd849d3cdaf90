// From the items 1 and 2: bay 5 misses a post, comes back with an old word, and is mended.
use bank::{Drawer, Watch, run, turn};
use call::Call;
use field::{BaseField, Field, Gf4};
use plain_rack::parts::PlainRack;
use rack::sides::Reading;
use std::io;

// Counts the looks at the bank.
#[derive(Default, Drop)]
struct Looks {
    count: u32,
}

impl<F: BaseField, R> Watch<F, R> for Looks {
    ghost sees = { λ before drawer rack after. Unit {0} };

    fn look(&mut self, _drawer: &Drawer<F>, _rack: &R) {
        self.count = self.count.saturating_add(1);
    }
}

const MISSED: [Call; 5] = [
    Call::Post {
        item: 0,
        line: 0,
        word: 1,
    },
    Call::Post {
        item: 1,
        line: 0,
        word: 2,
    },
    Call::Off { bay: 5 },
    Call::Post {
        item: 1,
        line: 0,
        word: 7,
    },
    Call::On { bay: 5 },
];

// What bay 5 holds, and whether it is behind.
fn show_bay(rt: &HostRuntime, drawer: &Drawer<Gf4>, rack: &mut PlainRack) -> io::Result<()> {
    let behind = drawer.is_behind(5);
    match rack.read(5, 0) {
        Ok(word) => println!(rt; "bay 5 holds {word}, behind: {behind}"),
        Err(_) => println!(rt; "bay 5 is silent, behind: {behind}"),
    }
}

fn show_mending(
    rt: &HostRuntime,
    drawer: Drawer<Gf4>,
    rack: &mut PlainRack,
    sheet: &mut [u16],
) -> io::Result<()> {
    show_bay(rt, &drawer, rack)?;
    let (drawer, answer) = turn(drawer, rack, sheet, Call::Get { item: 1, line: 0 });
    println!(rt; "get 1 0: {answer}")?;
    let (drawer, answer) = turn(drawer, rack, sheet, Call::Mend { bay: 5 });
    println!(rt; "mend 5: {answer}")?;
    show_bay(rt, &drawer, rack)
}

pub(crate) fn show_worked(rt: &HostRuntime) -> anyhow::Result<()> {
    let mut rack = PlainRack::zeros(rt.alloc(), 6, 1)?;
    let mut sheet = [0; 6];
    let mut looks = Looks::default();
    match run::<Gf4, PlainRack, Looks>(rt.alloc(), &mut rack, 2, &mut sheet, &MISSED, &mut looks) {
        Ok((drawer, answers)) => {
            // By hand: only frames of a round file have a text, and crates of that file would be needed for this one line.
            println!(rt; "post 0 0 1, post 1 0 2, off 5, post 1 0 7, on 5")?;
            for answer in &answers {
                println!(rt; "answer: {answer}")?;
            }
            println!(rt; "{} looks", looks.count)?;
            show_mending(rt, drawer, &mut rack, &mut sheet)?;
        }
        Err(why) => println!(rt; "{why}")?,
    }
    Ok(())
}
