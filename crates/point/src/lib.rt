// A point, by value. Carried over from `lib.rs` of tiny-skia-path 0.12.0.
#![tactic(auto)]

ghost use Rattle.std.specs.Prelude.{◌≡◌};
ghost use Rattle.float_laws.specs.Formula.{◌⊖◌, zero32};
ghost use Rattle.point.specs.Point.{point_finite, point_from};

use std::ops::Sub;

// Equal as floats are: NaN equals nothing, and -0 equals 0.
#[derive(Clone, Copy, PartialEq)]
pub struct Point {
    pub x: f32,
    pub y: f32,
}

impl Point {
    // The point with these coordinates.
    pub fn from_xy(x: f32, y: f32) -> Self
        ensures { result ≡ point_from x y }
    {
        Point { x, y }
    }

    // The point at 0, 0.
    pub fn zero() -> Self
        ensures { result ≡ point_from zero32 zero32 }
    {
        Point { x: 0.0, y: 0.0 }
    }

    // The crate's own test, on the product: two finite coordinates whose product overflows don't pass it.
    pub fn is_finite(self) -> bool
        ensures { result ≡ point_finite self }
    {
        float_ground::is_finite_f32(self.x * self.y)
    }
}

// The vector from `rhs` to `self`.
impl Sub for Point {
    type Output = Point;

    ghost sub_gives = { λ p q r. r ≡ point_from (p.x ⊖ q.x) (p.y ⊖ q.y) };

    fn sub(self, rhs: Point) -> Point {
        Point {
            x: self.x - rhs.x,
            y: self.y - rhs.y,
        }
    }
}
