// Prints the codeword of a line, strikes out sets of bays, and counts how often the line comes back whole.
// Its arguments are the number of elements of the base field, 4, 16 or 256, and the items of the line.
#![tactic(auto)]

mod strike;

use crate::strike::{Tally, most_absent, strike_out};
use anyhow::anyhow;
use extension::Gf16;
use field::{BaseField, Field, Gf4};
use std::alloc::Global;
use std::env;
use table_field::Table256;

fn arguments(rt: &HostRuntime) -> anyhow::Result<Vec<u16>> {
    env::args(rt)?
        .skip(1)
        .map(|word| -> anyhow::Result<u16> { Ok(word.as_str().parse::<u16>()?) })
        .try_collect(rt.alloc())
}

// The check words of the items, and the items. The message has no cause behind it, since a user knows which items he wrote.
fn codeword<F: BaseField>(heap: Global, items: &[u16]) -> anyhow::Result<Vec<u16>> {
    let mut checks = [0u16; 4];
    line_code::encode::<F>(items, &mut checks).map_err(|_| anyhow!(
        "these items are no line over this field"
    ))?;
    let mut words = Vec::from_slice(heap, &checks)?;
    words.extend_from_slice(items)?;
    Ok(words)
}

fn show<F: BaseField>(rt: &HostRuntime, items: &[u16]) -> anyhow::Result<()> {
    let words = codeword::<F>(rt.alloc(), items)?;
    print!(rt; "codeword")?;
    for word in words.iter() {
        print!(rt; " {word}")?;
    }
    println!(rt; "")?;
    let most = most_absent(words.len());
    let Tally { sets, whole } = strike_out::<F>(rt.alloc(), words.as_slice(), most)?;
    println!(rt; "of {sets} sets of at most {most} absent bays, {whole} came back whole")?;
    Ok(())
}

fn main(rt: HostRuntime) -> anyhow::Result<()> {
    let numbers = arguments(&rt)?;
    let Some((order, items)) = numbers.as_slice().split_first() else {
        return Err(anyhow!("write the size of the field and the items"));
    };
    // Each field is a type of its own, so an enum between the number and the type would only be matched again.
    match *order {
        4 => show::<Gf4>(&rt, items),
        16 => show::<Gf16>(&rt, items),
        256 => show::<Table256>(&rt, items),
        _ => Err(anyhow!("the field has 4, 16 or 256 elements")),
    }
}
