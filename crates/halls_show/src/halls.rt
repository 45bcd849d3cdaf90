// Halls with a count for each item and line, and how many of these a get gives.
use anyhow::Context;
use book::Book;
use fault::fault::Fault;
use field::{BaseField, Field};
use plain_rack::parts::PlainRack;
use rack::sides::{Reading, Serving};
use table_field::Table256;

// The bays that die in the hall of 256: two check bays, and the first and the last item's.
const DEAD: [usize; 4] = [1, 3, 4, 259];

// The counts of a hall: any numbers that differ much will do. The mask keeps them below the square of q.
#[derive(Clone, Copy)]
pub(crate) struct Counts {
    pub items: u16,
    pub lines: u16,
    pub mask: u16,
}

impl Counts {
    // The count of an item on a line.
    fn of(self, item: u16, line: u16) -> u16 {
        item.wrapping_mul(40_503)
            .wrapping_add(line.wrapping_mul(977))
            .wrapping_add(1)
            & self.mask
    }

    // How many counts pass, each with its item and line. Two loops, since no proof is found that a `flat_map` of ranges ends.
    fn passing<P: FnMut(usize, usize, u16) -> bool>(self, mut passes: P) -> u32
        requires { (state : P) (item line word : _) → P.pre state item line word }
    {
        let mut count: u32 = 0;
        for line in 0..self.lines {
            for item in 0..self.items {
                if passes(item as usize, line as usize, self.of(item, line)) {
                    count = count.saturating_add(1);
                }
            }
        }
        count
    }

    // Posts every count; how many were taken.
    pub(crate) fn fill<F: BaseField, R: Serving>(
        self,
        book: &mut Book<F>,
        rack: &mut R,
        sheet: &mut [u16],
    ) -> u32 {
        self.passing(|item, line, word| book.post(rack, sheet, item, line, word).is_ok())
    }

    // How many counts a get gives as they were posted.
    pub(crate) fn right<F: BaseField, R: Serving>(
        self,
        book: &Book<F>,
        rack: &mut R,
        sheet: &mut [u16],
    ) -> u32 {
        self.passing(|item, line, word| book.get(rack, sheet, item, line) == Ok(word))
    }
}

// A hall of 256 items and 64 lines with four bays dead.
pub(crate) fn show_largest(rt: &HostRuntime) -> anyhow::Result<()> {
    let counts = Counts {
        items: 256,
        lines: 64,
        mask: 65_535,
    };
    let mut rack = PlainRack::zeros(rt.alloc(), 260, 64)?;
    let mut sheet = [0; 260];
    let mut book = Book::<Table256>::start(&mut rack, 256)
        .map_err(Fault::from)
        .context("the hall of 256 did not start")?;
    let taken = counts.fill(&mut book, &mut rack, &mut sheet);
    for bay in DEAD {
        let _ = rack.off(bay);
    }
    let whole = counts.right(&book, &mut rack, &mut sheet);
    println!(rt;
        "a hall of 256 items and 64 lines: {taken} posts, and with four bays dead {whole} counts right"
    )?;
    Ok(())
}
