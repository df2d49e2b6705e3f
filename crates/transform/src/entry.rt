// The entries of a matrix that go through f64, and what narrowing them lost.
ghost use Rattle.std.specs.Prelude.{◌≡◌, false};
ghost use Rattle.transform.specs.Told.{computed_of, entry_of, moved_of, entries_of};

use super::{Computed, Transform};
use float_ground::narrow;

// A number that was narrowed, and whether that was not exact: both are always there.
#[derive(Clone, Copy)]
pub struct Entry {
    pub value: f32,
    pub rounded: bool,
}

impl Entry {
    // x narrowed once. Whether something was lost is asked of the number that says so: `NothingLost` of float_ground is of it.
    #[tactic(auto, using(float_ground::proofs::Losses::carried, float_ground::proofs::Losses::told))]
    pub fn of(x: f64) -> Self
        ensures { result ≡ entry_of x }
    {
        let narrowed = narrow(x);
        Entry {
            value: narrowed.value(),
            rounded: narrowed.loss() != 0,
        }
    }

    // The entry with a number added to it in f32, which narrows nothing.
    pub fn moved(self, by: f32) -> Self
        ensures { result ≡ moved_of self by }
    {
        Entry {
            value: self.value + by,
            rounded: self.rounded,
        }
    }
}

// A transform on the way to which nothing was narrowed.
pub fn exactly(transform: Transform) -> Computed
    ensures { result ≡ computed_of transform false }
{
    Computed {
        transform,
        rounded: false,
    }
}

// The transform of six entries, in the order of `from_row`, and whether one of them was rounded.
#[tactic(auto, using(crate::proofs::Entries::joined), unfolding(crate::specs::Told::some_rounded))]
pub fn together(sx: Entry, ky: Entry, kx: Entry, sy: Entry, tx: Entry, ty: Entry) -> Computed
    ensures { result ≡ entries_of sx ky kx sy tx ty }
{
    Computed {
        transform: Transform::from_row(sx.value, ky.value, kx.value, sy.value, tx.value, ty.value),
        rounded: sx.rounded | ky.rounded | kx.rounded | sy.rounded | tx.rounded | ty.rounded,
    }
}
