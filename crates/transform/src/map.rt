// Where a transform maps a point. Carried over from `transform.rs` of tiny-skia-path 0.12.0.
ghost use Rattle.std.specs.Prelude.{◌≡◌};
ghost use Rattle.transform.specs.Mapped.{translated_of, scaled_of, skewed_of, map_point};

use super::Transform;
use point::Point;

impl Transform {
    // Where the point p goes.
    #[tactic(auto, using(crate::proofs::Skewed::skew_first))]
    pub fn map_point(self, p: Point) -> Point
        ensures { result ≡ map_point self p }
    {
        // the four kinds of `transform.rs`; of a skew none of the others is, and it takes longest, so that it is asked for first
        if self.has_skew() {
            return skewed(self, p);
        }
        if self.is_identity() {
            return p;
        }
        if self.is_translate() {
            return translated(self, p);
        }
        scaled(self, p)
    }
}

// p where the transform only moves.
fn translated(ts: Transform, p: Point) -> Point
    ensures { result ≡ translated_of ts p }
{
    Point {
        x: p.x + ts.tx,
        y: p.y + ts.ty,
    }
}

// p where the transform scales or moves, and does not skew.
fn scaled(ts: Transform, p: Point) -> Point
    ensures { result ≡ scaled_of ts p }
{
    Point {
        x: p.x * ts.sx + ts.tx,
        y: p.y * ts.sy + ts.ty,
    }
}

// p where the transform skews.
fn skewed(ts: Transform, p: Point) -> Point
    ensures { result ≡ skewed_of ts p }
{
    Point {
        x: p.x * ts.sx + p.y * ts.kx + ts.tx,
        y: p.x * ts.ky + p.y * ts.sy + ts.ty,
    }
}
