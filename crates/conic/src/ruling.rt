// The between tests that a rule puts an axis in order by.
#![tactic(auto, unfolding(crate::specs::Between::passes))]

ghost use Rattle.std.specs.Prelude.{◌≡◌};
ghost use Rattle.conic.specs.Between.{passes};

use crate::{between_exact, between_product};

// The between test along an axis, an enum since `test_along` and `passes` of specs/ speak of it. One that nothing passes leaves the
// axis as it is.
#[derive(Clone, Copy)]
pub enum Test {
    Never,
    Product,
    Exact,
}

// Whether b passes the test against a and c.
pub fn passes(test: Test, a: f32, b: f32, c: f32) -> bool
    ensures { result ≡ passes test a b c }
{
    match test {
        Test::Never => false,
        Test::Product => between_product(a, b, c),
        Test::Exact => between_exact(a, b, c),
    }
}
