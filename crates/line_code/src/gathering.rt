// The sums R(S) of a line, for all sets S of few bits at once and in place.
ghost use Rattle.std.specs.Prelude.{◌≡◌, ℕ, ◌+◌, ◌^◌, ◌<◌, ◌≤◌, length, bit_xor, slice_index};
ghost use Rattle.halves.specs.Gathered.{Gathered};
ghost use Rattle.extension.specs.Extend.{extend};
ghost use Rattle.line_code.specs.Sets.{Within};
ghost use Rattle.line_code.specs.Sums.{check_sums};
ghost use Rattle.line_code.specs.Padded.{padded, Below};

use crate::admit::Line;
use crate::bits::run_length;
use crate::moments::Constants;
use crate::sums::{Sums, element};
use field::{BaseField, Field};

// Adds the upper half of a run to its lower half. Words add by exclusive or.
// By index, since over two slices it was measured slower: the machine code then asks whether they overlap.
fn add_upper(words: &mut [u16], half: usize)
    requires { half + half ≤ length words.old }
    ensures lower { (i : ℕ) → i < half → slice_index words.new i ≡ bit_xor (slice_index words.old i) (slice_index words.old (half + i)) }
    ensures upper { (i : ℕ) → half ≤ i → slice_index words.new i ≡ slice_index words.old i }
{
    for i in 0..half {
        words[i] ^= words[half + i];
    }
}

// Puts R(S) to the place whose number has the bits of S, for every S of at most so many bits. The run is halved until
// one word remains: the upper half by itself serves the sets that hold the top bit, both halves added serve the others.
fn gather(words: &mut [u16], exponent: usize, most: usize)
    requires short { exponent ≤ 8 }
    requires long { length words.old ≡ 2 ^ exponent }
    ensures sums { Gathered exponent most words.old words.new }
    ensures small { (b : ℕ) → Below b words.old → Below b words.new }
{
    if exponent == 0 {
        return;
    }
    let half = run_length(exponent - 1);
    add_upper(words, half);
    let (lower, upper) = words.split_at_mut(half);
    if most > 0 {
        gather(upper, exponent - 1, most - 1);
    }
    gather(lower, exponent - 1, most);
}

// A line with zero words behind it.
fn pad(words: &[u16]) -> [u16; 256]
    requires { length words.now ≤ 256 }
    ensures { result ≡ padded words.now }
{
    let mut run = [0u16; 256];
    run[..words.len()].copy_from_slice(words);
    run
}

// The four sums of a line of at most 2^n items, n being the number of the constants' bits.
pub(crate) fn gathered_sums<F: BaseField>(line: &Line<F>, constants: &Constants<F>) -> Sums<F>
    requires { length line.now.words.now ≤ 2 ^ length constants.now.factors.now }
    ensures { result ≡ check_sums F.Field.structure line.now.words.now }
{
    let bits = constants.factors.len();
    let mut run = pad(line.words);
    gather(&mut run[..run_length(bits)], bits, 2);
    constants
        .moments(
            |set|
                requires within { Within 8 set }
                requires small { Below (extend F.Field.structure).bits run }
            { element(run[set.place()]) },
        )
        .shifted()
}
