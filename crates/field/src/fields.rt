// A finite field of characteristic two whose elements are numbered from 0.
ghost use Rattle.std.specs.Prelude.{◌≡◌, ◌<◌, ◌≤◌};
ghost use Rattle.field.specs.Structure.{Structure, size};
ghost use Rattle.field.specs.Numbers.{element_answer};

use fault::fault::BookFault;

// Its values are the elements. The structure is the field's meaning: the operations with their laws.
// What follows from an element's number has a body here, which a field may replace by a faster one.
pub trait Field: Copy {
    ghost structure: { Structure Self };

    // The number of elements, q.
    fn order() -> u32
        ensures { result ≡ size structure };

    // The element of a number, if it is below q.
    fn from_number(n: u32) -> Result<Self, BookFault>
        ensures { result ≡ element_answer structure n };

    // The element of a number below q. A field that need not test the number again writes it anew.
    fn element(n: u32) -> Self
        requires { n < size structure }
        ensures { result ≡ structure.of n }
    {
        Self::from_number(n).unwrap()
    }

    fn number(self) -> u32
        ensures { result ≡ structure.value self };

    fn zero() -> Self
        ensures { result ≡ structure.zero }
    {
        Self::element(0)
    }

    fn one() -> Self
        ensures { result ≡ structure.one }
    {
        Self::element(1)
    }

    // The constant v by which the field is extended: u u = u + v.
    fn constant() -> Self
        ensures { result ≡ structure.v };

    fn plus(self, other: Self) -> Self
        ensures { result ≡ structure.plus self other }
    {
        Self::element(self.number() ^ other.number())
    }

    fn times(self, other: Self) -> Self
        ensures { result ≡ structure.times self other };

    // The inverse; zero for zero.
    fn inverse(self) -> Self
        ensures { result ≡ structure.inverse self };

    ghost fits: { structure.bits ≤ 16 };
}

// A field of at most 256 elements: these can be extended, and the numbers of the extension's elements have at most 16 bits.
pub trait BaseField: Field {
    ghost small: { Self.Field.structure.bits ≤ 8 };
}
