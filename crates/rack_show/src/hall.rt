// A rack of three plain ones, and what is done to it.
ghost use Rattle.std.specs.Prelude.{◌≡◌, IfOk, Err, vec_len, MatchResult};
ghost use Rattle.fault.specs.declared.fault.RackFault.TheVariants.{NoJoin};
ghost use Rattle.rack_show.specs.Hall.{counted, hall_meaning, three};

use fault::fault::RackFault;
use joined_rack::pair::JoinedRack;
use plain_rack::parts::PlainRack;
use std::alloc::{AllocError, Global};

pub(crate) type Hall = JoinedRack<PlainRack, JoinedRack<PlainRack, PlainRack>>;

// The words of two bays of three lines: base, base + 1 and so on.
pub(crate) fn words(heap: Global, base: u16) -> Result<Vec<u16>, AllocError>
    ensures six { IfOk result (λ v. vec_len v ≡ 6) }
    ensures items { IfOk result (λ v. v.items ≡ counted base 6) }
{
    (0..6).map(|i| base.wrapping_add(i)).collect(heap)
}

// Two bays of three lines over each of the lists, side by side.
pub(crate) fn make_hall(a: Vec<u16>, b: Vec<u16>, c: Vec<u16>) -> Result<Hall, RackFault>
    requires six_a { vec_len a ≡ 6 }
    requires six_b { vec_len b ≡ 6 }
    requires six_c { vec_len c ≡ 6 }
    ensures { MatchResult result (λ hall. hall_meaning hall ≡ three a.items b.items c.items) (λ _. ⊥) }
{
    let shape = PlainRack::check(2, 3, 6)?;
    let mut first = PlainRack::new(shape, a);
    let mut second = PlainRack::new(shape, b);
    let mut third = PlainRack::new(shape, c);
    JoinedRack::check(&mut second, &mut third)?;
    let mut rest = JoinedRack::new(second, third);
    JoinedRack::check(&mut first, &mut rest)?;
    Ok(JoinedRack::new(first, rest))
}

// Whether two bays of three lines can stand beside three bays of two.
pub(crate) fn join_unlike(a: Vec<u16>, b: Vec<u16>) -> Result<(), RackFault>
    requires six_a { vec_len a ≡ 6 }
    requires six_b { vec_len b ≡ 6 }
    ensures { result ≡ Err (NoJoin 5) }
{
    let mut first = PlainRack::new(PlainRack::check(2, 3, 6)?, a);
    let mut second = PlainRack::new(PlainRack::check(3, 2, 6)?, b);
    JoinedRack::check(&mut first, &mut second)
}
