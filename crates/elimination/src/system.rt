// Systems of four equations, and elimination.
ghost use Rattle.std.specs.Prelude.{◌≡◌, ℕ, ◌<◌, ◌≤◌, ◌↔◌, IsTrue, ◌≢◌};
ghost use Rattle.systems.specs.Rows.{Added, Exchanged, Scaled};
ghost use Rattle.elimination.specs.Answer.{Answer, Eliminated, Nonzero};
ghost use Rattle.elimination.specs.Equations.{across, at, by_columns, cell, multiplied, summed, table};

use crate::four::Four;
use field::Field;

// The sum of the coefficients times the unknowns is the right hand side.
#[derive(Clone, Copy)]
pub struct Equation<F> {
    pub coefficients: Four<F>,
    pub right: F,
}

// Why a system has no one solution.
#[derive(Clone, Copy, PartialEq, Eq, Debug)]
pub enum Unsolved {
    // The columns are dependent: the equations have several solutions or none.
    Dependent,
    // The columns are independent, and no values of the unknowns satisfy all equations.
    Inconsistent,
}

// A field asks for no `==` of its elements: zero is the element with the number 0.
fn is_zero<F: Field>(x: F) -> bool
    ensures { IsTrue result ↔ x ≡ F.Field.structure.zero }
{
    x.number() == 0
}

impl<F: Field> Equation<F> {
    // The coefficient of an unknown, or the right hand side from place 4 on.
    fn cell(self, j: usize) -> F
        ensures { result ≡ cell F.Field.structure self j }
    {
        if j < 4 {
            self.coefficients[j]
        } else {
            self.right
        }
    }

    fn times(self, by: F) -> Equation<F>
        ensures { result ≡ multiplied F.Field.structure by self }
    {
        Equation {
            coefficients: Four::from_fn(|j| by.times(self.coefficients[j])),
            right: by.times(self.right),
        }
    }

    fn plus(self, other: Equation<F>) -> Equation<F>
        ensures { result ≡ summed F.Field.structure self other }
    {
        Equation {
            coefficients: self
                .coefficients
                .zip_with(other.coefficients, |x, y| x.plus(y)),
            right: self.right.plus(other.right),
        }
    }

    // The multiple that has one at place j.
    fn normalized(self, j: usize) -> Equation<F>
        ensures { result ≡ multiplied F.Field.structure (F.Field.structure.inverse (cell F.Field.structure self j)) self }
    {
        self.times(self.cell(j).inverse())
    }

    // Without its part at place j, by an equation that has one there.
    fn reduced(self, pivot: Equation<F>, j: usize) -> Equation<F>
        ensures { result ≡ summed F.Field.structure self (multiplied F.Field.structure (cell F.Field.structure self j) pivot) }
    {
        self.plus(pivot.times(self.cell(j)))
    }
}

// Row r of the system whose columns are given.
fn row<F: Copy>(columns: Four<Four<F>>, right: Four<F>, r: usize) -> Equation<F>
    ensures { result ≡ across columns right r }
{
    Equation {
        coefficients: Four::from_fn(|j| columns[j][r]),
        right: right[r],
    }
}

// The system of four columns: column j has the coefficients of unknown j in the four equations.
pub fn equations<F: Copy>(columns: Four<Four<F>>, right: Four<F>) -> Four<Equation<F>>
    ensures { result ≡ by_columns columns right }
{
    Four::from_fn(|r| row(columns, right, r))
}

// A row, not above the given one, whose element in the column is not zero.
fn nonzero<F: Field>(rows: Four<Equation<F>>, from: usize, column: usize) -> Option<usize>
    ensures { Nonzero F.Field.structure rows from column result }
{
    (from..4).find(|r| !is_zero(rows[*r].cell(column)))
}

fn exchange<F: Field>(rows: Four<Equation<F>>, p: usize, q: usize) -> Four<Equation<F>>
    requires first { p < 4 }
    requires second { q < 4 }
    ensures { Exchanged F.Field.structure (table F.Field.structure rows) p q (table F.Field.structure result) }
{
    rows.with(p, rows[q]).with(q, rows[p])
}

// Makes the element at row p and column p one.
fn scale<F: Field>(rows: Four<Equation<F>>, p: usize) -> Four<Equation<F>>
    requires { p < 4 }
    ensures { Scaled F.Field.structure (table F.Field.structure rows) p (F.Field.structure.inverse (table F.Field.structure rows p p)) (table F.Field.structure result) }
{
    rows.with(p, rows[p].normalized(p))
}

// Makes the other elements of column p zero.
fn clear<F: Field>(rows: Four<Equation<F>>, p: usize) -> Four<Equation<F>>
    requires { p < 4 }
    ensures { Added F.Field.structure (table F.Field.structure rows) p (λ k. table F.Field.structure rows k p) (table F.Field.structure result) }
{
    let pivot = rows[p];
    Four::from_fn(|r| {
        if r == p {
            pivot
        } else {
            rows[r].reduced(pivot, p)
        }
    })
}

// A loop: each round starts from the rows of the one before it, and n is at once the round's row and its column.
fn eliminate<F: Field>(mut rows: Four<Equation<F>>, unknowns: usize) -> Option<Four<Equation<F>>>
    requires { unknowns ≤ 4 }
    ensures { Eliminated F.Field.structure rows unknowns result }
{
    for n in 0..unknowns {
        let p = nonzero(rows, n, n)?;
        rows = clear(scale(exchange(rows, n, p), n), n);
    }
    Some(rows)
}

// The right hand sides of the rows of the unknowns.
fn solution<F: Field>(rows: Four<Equation<F>>, unknowns: usize) -> Four<F>
    requires { unknowns ≤ 4 }
    ensures known { (j : ℕ) → j < unknowns → at F.Field.structure result j ≡ table F.Field.structure rows j 4 }
    ensures after { (j : ℕ) → unknowns ≤ j → at F.Field.structure result j ≡ F.Field.structure.zero }
{
    Four::from_fn(|j| {
        if j < unknowns {
            rows[j].right
        } else {
            F::zero()
        }
    })
}

// The values of the first unknowns that satisfy the four equations; the places after them are zero.
// Unknowns beyond the fourth have no coefficients, so that more than four are dependent.
pub fn solve<F: Field>(system: Four<Equation<F>>, unknowns: usize) -> Result<Four<F>, Unsolved>
    ensures { Answer F.Field.structure system unknowns result }
{
    if unknowns > 4 {
        return Err(Unsolved::Dependent);
    }
    let rows = eliminate(system, unknowns).ok_or(Unsolved::Dependent)?;
    match nonzero(rows, unknowns, 4) {
        Some(_) => Err(Unsolved::Inconsistent),
        None => Ok(solution(rows, unknowns)),
    }
}
