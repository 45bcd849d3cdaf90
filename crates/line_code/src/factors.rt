// The constants of the Reed-Muller way: what R(k) and R(j, k) are multiplied by.
ghost use Rattle.std.specs.Prelude.{◌≡◌, ◌<◌, ◌≤◌};
ghost use Rattle.field.specs.Structure.{size};
ghost use Rattle.halves.specs.Moments.{bit};
ghost use Rattle.line_code.specs.Prepared.{Factored, Prepared};

use crate::bits::run_length;
use field::{BaseField, Field};
use std::array;

// Of a bit k, by their numbers: v_k², v_k³, and for each lower bit j the mixed factor v_j²·v_k + v_j·v_k².
// Numbers and not elements, since a caller of a function with an array of a type parameter's elements has to show their size.
#[derive(Clone, Copy)]
pub(crate) struct Factors {
    pub square: u8,
    pub cube: u8,
    pub mixed: [u8; 8],
}

// Those of bit 0: v_0 is one, and no bit is lower.
const OF_BIT_0: Factors = Factors {
    square: 1,
    cube: 1,
    mixed: [0; 8],
};

// v_j, the base element numbered 2^j.
pub(crate) fn bit<F: BaseField>(j: usize) -> F
    requires { j < F.Field.structure.bits }
    ensures { result ≡ bit F.Field.structure j }
{
    F::element(run_length(j) as u32)
}

// v²·w + v·w², as v·w·(v + w).
fn mixed<F: BaseField>(v: F, w: F) -> F
    ensures { let s = F.Field.structure in result ≡ s.plus (s.times (s.times v v) w) (s.times v (s.times w w)) }
{
    v.times(w).times(v.plus(w))
}

// The base element of a number.
pub(crate) fn factor<F: BaseField>(number: u8) -> F
    requires { number < size F.Field.structure }
    ensures { result ≡ F.Field.structure.of number }
{
    F::element(number as u32)
}

// The number of a base element, in a byte.
fn byte<F: BaseField>(x: F) -> u8
    ensures { result ≡ F.Field.structure.value x }
{
    x.number() as u8
}

// The factors of a bit.
fn factors_of<F: BaseField>(k: usize) -> Factors
    requires { k < F.Field.structure.bits }
    ensures { Factored F.Field.structure k result }
{
    let v = bit::<F>(k);
    let vv = v.times(v);
    Factors {
        square: byte(vv),
        cube: byte(vv.times(v)),
        mixed: array::from_fn(|j| if j < k {
            byte(mixed(bit::<F>(j), v))
        } else {
            0
        }),
    }
}

// The factors of the lowest bits, in their order. Those behind them are not used.
pub(crate) fn prepare<F: BaseField>(bits: usize) -> [Factors; 8]
    requires { bits ≤ F.Field.structure.bits }
    ensures { Prepared F.Field.structure bits result }
{
    array::from_fn(
        |k| -> Factors
            requires { bits ≤ F.Field.structure.bits }
            ensures { k < bits → Factored F.Field.structure k result }
        {
            if 0 < k && k < bits {
                factors_of::<F>(k)
            } else {
                OF_BIT_0
            }
        },
    )
}
