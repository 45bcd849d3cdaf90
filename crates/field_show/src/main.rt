// Prints a product and an inverse in each field.
#![tactic(auto)]

use extension::{Ext, Gf16, Gf256, Gf65536};
use fault::fault::{BookFault, Fault};
use field::{BaseField, Field, Gf4};
use std::io;
use table_field::{Table256, table_equals_pile};
use tower::{inverse, product, tower_stands, worked_products_stand};

fn product_and_inverse<F: Field>(a: u32, b: u32) -> Result<(u32, u32), BookFault> {
    Ok((product::<F>(a, b)?, inverse::<F>(a)?))
}

fn show<F: Field>(rt: &HostRuntime, a: u32, b: u32) -> io::Result<()> {
    let q = F::order();
    match product_and_inverse::<F>(a, b).map_err(Fault::from) {
        Ok((c, i)) => println!(rt; "{q}: {a} * {b} = {c}, 1 / {a} = {i}"),
        Err(fault) => println!(rt; "{q}: refused by {} at {}", fault.number(), fault.place()),
    }
}

fn main(rt: HostRuntime) -> io::Result<()> {
    tower_stands();
    worked_products_stand();
    table_equals_pile();
    show::<Gf4>(&rt, 2, 3)?;
    show::<Gf16>(&rt, 4, 4)?;
    show::<Gf16>(&rt, 8, 8)?;
    show::<Gf256>(&rt, 16, 16)?;
    show::<Gf256>(&rt, 128, 128)?;
    show::<Table256>(&rt, 16, 16)?;
    show::<Table256>(&rt, 128, 128)?;
    show::<Gf65536>(&rt, 256, 256)?;
    show::<Ext<Table256>>(&rt, 256, 256)?;
    show::<Gf16>(&rt, 16, 1)
}
