// The distance of the line code: any n of the n + 4 words of a line fix it. Each theorem is the contract of a function.
#![tactic(auto)]

ghost use Rattle.codeword.specs.Codeword.{Distance};
ghost use Rattle.distance.specs.Theorems.{BySyndromes, Independent};

use field::{BaseField, Field};

// For every base field: at most one line fits the words of any n bays, and one does, whatever the words are.
pub fn any_n_words_fix_the_line<F: BaseField>()
    ensures { Distance F.Field.structure }
{}

// The words of the bays are a codeword where, and only where, their four syndromes are zero.
pub fn syndromes_tell_codewords<F: BaseField>()
    ensures { BySyndromes F.Field.structure }
{}

// The columns of any four bays are independent.
pub fn any_four_columns_are_independent<F: BaseField>()
    ensures { Independent F.Field.structure }
{}
