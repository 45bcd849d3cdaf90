// The limits: what is taken just below them, and refused just above.
use bank::{Drawer, turn};
use book::Book;
use call::Call;
use extension::{Ext, Gf16};
use fault::fault::{BookFault, Fault};
use field::{BaseField, Field, Gf4};
use ledger::Answer;
use plain_rack::parts::PlainRack;
use rack::error::RackError;

// Starts a hall on a rack with four bays more.
fn show_start<F: BaseField>(rt: &HostRuntime, items: u8, lines: u8) -> anyhow::Result<()> {
    let items = items as usize;
    print!(rt; "start {items} {lines}: ")?;
    match PlainRack::zeros(rt.alloc(), items + 4, lines as usize) {
        Ok(mut rack) => {
            let answer = Answer::from(Book::<F>::start(&mut rack, items).map(|_| ()));
            println!(rt; "{answer}")?;
        }
        Err(RackError::Refused(_)) => println!(rt; "no such rack")?,
        Err(error) => return Err(anyhow::Error::from(error)),
    }
    Ok(())
}

// Posts a word to item 0 of a hall of three items in which so many of the first bays are silent.
fn show_post<F: BaseField>(rt: &HostRuntime, silent: u16, word: u16) -> anyhow::Result<()> {
    let mut rack = PlainRack::zeros(rt.alloc(), 7, 1)?;
    let mut sheet = [0; 7];
    let book = Book::<F>::start(&mut rack, 3).map_err(Fault::from)?;
    let mut drawer = Drawer::Closed(book);
    for bay in 0..silent {
        (drawer, _) = turn(drawer, &mut rack, &mut sheet, Call::Off { bay });
    }
    let post = Call::Post {
        item: 0,
        line: 0,
        word,
    };
    let (_, answer) = turn(drawer, &mut rack, &mut sheet, post);
    println!(rt; "{silent} silent, word {word}, post 0 0: {answer}")?;
    Ok(())
}

pub(crate) fn show_limits(rt: &HostRuntime) -> anyhow::Result<()> {
    for (items, lines) in [(4, 64), (5, 64), (4, 65)] {
        show_start::<Gf4>(rt, items, lines)?;
    }
    for items in [16, 17] {
        show_start::<Gf16>(rt, items, 64)?;
    }
    for word in [15, 16] {
        show_post::<Gf4>(rt, 0, word)?;
    }
    for word in [255, 256] {
        show_post::<Gf16>(rt, 0, word)?;
    }
    for silent in [4, 5] {
        show_post::<Gf4>(rt, silent, 9)?;
    }
    Ok(())
}
