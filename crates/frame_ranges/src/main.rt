// Reads whole ranges of files, and prints what came of each: the compiled reader, where the proofs speak of its source.
#![tactic(auto)]

use fault::fault::FileFault;
use frame::encode::{WriteFault, encode};
use frame::frame::{Call, Frame};
use frame::kind::Kind;
use frame::reader::Reader;
use std::alloc::{AllocError, Global};
use std::fmt;

// How many frames of each sort came.
#[derive(Clone, Copy, Default)]
struct Tally {
    calls: u32,
    notes: u32,
    unknown: u32,
    wrong: u32,
    cut: u32,
}

impl Tally {
    fn add(&mut self, file: &[u8]) {
        for answer in Reader::new(file) {
            let count = match answer {
                Ok(Frame::Start { .. } | Frame::Call(_)) => &mut self.calls,
                Ok(Frame::Note(_)) => &mut self.notes,
                Ok(Frame::Unknown { .. }) => &mut self.unknown,
                Err(FileFault::CutShort(_)) => &mut self.cut,
                Err(_) => &mut self.wrong,
            };
            *count = count.saturating_add(1);
        }
    }
}

impl fmt::Display for Tally {
    fn fmt<W: fmt::Write>(&self, f: &mut fmt::Formatter<W>) -> fmt::Result {
        let Tally {
            calls,
            notes,
            unknown,
            wrong,
            cut,
        } = *self;
        write!(
            f,
            "{calls} calls, {notes} notes, {unknown} unknown, {wrong} of a wrong length, {cut} cut short"
        )
    }
}

// Each number of a kind, with a body of so many zeros.
fn kinds(body: u8) -> Tally {
    let mut tally = Tally::default();
    for kind in 0..=u16::MAX {
        let [low, high] = kind.to_le_bytes();
        let file = [body, 0, low, high, 0, 0, 0, 0, 0, 0];
        tally.add(&file[..4 + usize::from(body.min(6))]);
    }
    tally
}

// Each length of body, for one number of a kind.
fn lengths(heap: Global, kind: u16) -> Result<Tally, AllocError> {
    let mut tally = Tally::default();
    let mut file = vec![in heap; 0u8; 65_539]?;
    [file[2], file[3]] = kind.to_le_bytes();
    for length in 0..=u16::MAX {
        [file[0], file[1]] = length.to_le_bytes();
        tally.add(&file[..4 + usize::from(length)]);
    }
    Ok(tally)
}

fn sample(heap: Global) -> Result<Vec<u8>, WriteFault> {
    let frames = [
        Frame::Start {
            items: 2,
            lines: 1,
            field: 4,
        },
        Frame::Call(Call::Post {
            item: 1,
            line: 0,
            word: 513,
        }),
        Frame::Note(b"chilled meals"),
        Frame::Call(Call::Seat),
        Frame::Unknown {
            kind: 700,
            body: b"???",
        },
        Frame::Call(Call::Get { item: 1, line: 0 }),
    ];
    let mut file = Vec::new(heap);
    for frame in frames {
        let bytes = encode(heap, frame)?;
        file.extend_from_slice(bytes.as_slice())?;
    }
    Ok(file)
}

// A file of six frames, cut after each of its bytes in turn.
fn cuts(heap: Global) -> Result<Tally, WriteFault> {
    let mut tally = Tally::default();
    let file = sample(heap)?;
    for end in 0..=file.len() {
        tally.add(&file[..end]);
    }
    Ok(tally)
}

fn main(rt: HostRuntime) -> anyhow::Result<()> {
    println!(rt; "each kind, no body: {}", kinds(0))?;
    println!(rt; "each kind, six bytes of body: {}", kinds(6))?;
    println!(rt;
        "post with each length of body: {}",
        lengths(rt.alloc(), Kind::Post.into())?
    )?;
    println!(rt;
        "note with each length of body: {}",
        lengths(rt.alloc(), Kind::Note.into())?
    )?;
    println!(rt;
        "kind 10 with each length of body: {}",
        lengths(rt.alloc(), 10)?
    )?;
    // Not by `?`, which would end the program where this prints why the file was not written.
    match cuts(rt.alloc()) {
        Ok(tally) => println!(rt; "six frames, cut after each byte: {tally}")?,
        Err(fault) => println!(rt; "not written: {fault:?}")?,
    }
    Ok(())
}
