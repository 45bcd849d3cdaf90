// Four values of one type.
// No `[T; 4]`: a generic call with an array of a type parameter's elements owes that they fit into memory, which no bound here says.
ghost use Rattle.std.specs.Prelude.{◌≡◌, ◌<◌, ℕ};
ghost use Rattle.elimination.specs.Places.{place, put};

use std::ops::Index;

// The values at the places 0 to 3.
#[derive(Clone, Copy)]
pub struct Four<T> {
    pub a: T,
    pub b: T,
    pub c: T,
    pub d: T,
}

impl<T: Copy> Four<T> {
    // The value that a closure gives at each place.
    pub fn from_fn<M: Fn(usize) -> T>(make: M) -> Four<T>
        requires { (k : ℕ) → k < 4 → M.pre make k }
        ensures { (k : ℕ) → k < 4 → M.post make k (place result k) }
    {
        Four {
            a: make(0),
            b: make(1),
            c: make(2),
            d: make(3),
        }
    }

    // What a closure makes of the two values at each place.
    pub fn zip_with<M: Fn(T, T) -> T>(self, other: Four<T>, make: M) -> Four<T>
        requires { (k : ℕ) → k < 4 → M.pre make (place self k) (place other k) }
        ensures { (k : ℕ) → k < 4 → M.post make (place self k) (place other k) (place result k) }
    {
        Four {
            a: make(self.a, other.a),
            b: make(self.b, other.b),
            c: make(self.c, other.c),
            d: make(self.d, other.d),
        }
    }

    // The four values with another at a place; from 3 on it is the last.
    pub fn with(self, i: usize, x: T) -> Four<T>
        ensures { result ≡ put self i x }
    {
        match i {
            0 => Four { a: x, ..self },
            1 => Four { b: x, ..self },
            2 => Four { c: x, ..self },
            _ => Four { d: x, ..self },
        }
    }
}

// The value at a place; from 3 on it is the last.
impl<T> Index<usize> for Four<T> {
    type Output = T;

    ghost index_gives = { λ f i x. x ≡ place f i };

    fn index(&self, i: usize) -> &T {
        match i {
            0 => &self.a,
            1 => &self.b,
            2 => &self.c,
            _ => &self.d,
        }
    }
}
