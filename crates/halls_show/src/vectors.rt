// Lines of four items with their check words, worked out by another program.
use extension::Gf16;
use field::{BaseField, Field, Gf4};
use line_code::encode;
use table_field::Table256;

#[derive(Clone, Copy)]
struct Vector {
    items: [u16; 4],
    checks: [u16; 4],
}

const FOUR: [Vector; 4] = [
    Vector {
        items: [4, 8, 3, 10],
        checks: [5, 14, 13, 1],
    },
    Vector {
        items: [5, 0, 13, 13],
        checks: [5, 15, 5, 13],
    },
    Vector {
        items: [2, 3, 4, 10],
        checks: [15, 15, 4, 9],
    },
    Vector {
        items: [15, 14, 13, 6],
        checks: [10, 6, 2, 5],
    },
];

const SIXTEEN: [Vector; 4] = [
    Vector {
        items: [102, 162, 171, 168],
        checks: [199, 189, 209, 214],
    },
    Vector {
        items: [218, 47, 251, 207],
        checks: [193, 46, 114, 27],
    },
    Vector {
        items: [41, 105, 124, 17],
        checks: [45, 50, 145, 205],
    },
    Vector {
        items: [103, 48, 42, 97],
        checks: [28, 4, 201, 213],
    },
];

const TABLE: [Vector; 4] = [
    Vector {
        items: [33216, 37155, 39985, 33657],
        checks: [4011, 37878, 44086, 20018],
    },
    Vector {
        items: [21410, 15426, 3059, 35068],
        checks: [60655, 30330, 13556, 29553],
    },
    Vector {
        items: [30665, 28792, 31138, 7341],
        checks: [25278, 2671, 53333, 3309],
    },
    Vector {
        items: [1701, 39419, 36621, 17940],
        checks: [22087, 32901, 3541, 2870],
    },
];

// How many of the lines have these check words.
fn count_right<F: BaseField>(vectors: &[Vector]) -> usize {
    vectors
        .iter()
        .filter(|vector| {
            let mut checks = [0; 4];
            encode::<F>(&vector.items, &mut checks).is_ok() && checks == vector.checks
        })
        .count()
}

pub(crate) fn show_vectors(rt: &HostRuntime) -> anyhow::Result<()> {
    let four = count_right::<Gf4>(&FOUR);
    let sixteen = count_right::<Gf16>(&SIXTEEN);
    let table = count_right::<Table256>(&TABLE);
    println!(rt;
        "check words of 4 lines over each field, worked out elsewhere: {four} over 4, {sixteen} over 16, {table} over 256"
    )?;
    Ok(())
}
