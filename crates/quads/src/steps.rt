// The tests of a parameter, and the step on points that the formulas share.
ghost use Rattle.std.specs.Prelude.{◌≡◌};
ghost use Rattle.quads.specs.Steps as S;

use super::Refusal;
use point::Point;

// Refuses a t that is NaN or outside 0 ≤ t ≤ 1.
pub fn in_unit(t: f32) -> Result<(), Refusal>
    ensures { result ≡ S.in_unit t }
{
    if (t >= 0.0) & (t <= 1.0) {
        Ok(())
    } else {
        Err(Refusal::OutOfRange)
    }
}

// Refuses a t that is NaN or outside 0 < t < 1.
pub fn in_open_unit(t: f32) -> Result<(), Refusal>
    ensures { result ≡ S.in_open_unit t }
{
    if (t > 0.0) & (t < 1.0) {
        Ok(())
    } else {
        Err(Refusal::OutOfRange)
    }
}

// The point t of the way from p to q.
pub fn interp(p: Point, q: Point, t: f32) -> Point
    ensures { result ≡ S.interp p q t }
{
    Point {
        x: p.x + (q.x - p.x) * t,
        y: p.y + (q.y - p.y) * t,
    }
}
