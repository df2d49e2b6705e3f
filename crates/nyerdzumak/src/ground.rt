// The float ground's calls, and the finite test of a point.
ghost use Rattle.std.specs.Prelude.{◌≡◌};
ghost use Rattle.std.specs.Float.{binary32, binary64};
ghost use Rattle.std.specs.Float.Ieee.Scale.{finite};
ghost use Rattle.float_laws.specs.Absolute.{abs_of};
ghost use Rattle.float_laws.specs.Narrow.{narrow_of};
ghost use Rattle.float_laws.specs.Root.{Root, root_of};
ghost use Rattle.float_ground.specs.Narrowed.{narrowed_of, loss_of};
ghost use Rattle.point.specs.Point.{point_from, point_finite};

use point::Point;

pub fn nz_is_finite_f32(x: f32) -> bool
    ensures { result ≡ finite x }
{
    float_ground::is_finite_f32(x)
}

pub fn nz_is_finite_f64(x: f64) -> bool
    ensures { result ≡ finite x }
{
    float_ground::is_finite_f64(x)
}

pub fn nz_abs_f32(x: f32) -> f32
    ensures { result ≡ abs_of x }
{
    float_ground::abs_f32(x)
}

pub fn nz_widen(x: f32) -> f64
    ensures { result ≡ x }
{
    float_ground::widen(x)
}

#[tactic(auto, using(float_ground::proofs::Losses::carried))]
pub fn nz_narrow(x: f64) -> f32
    ensures { result ≡ narrow_of x }
{
    float_ground::narrow(x).value()
}

// The same, and what was lost: 0 for nothing, 1 where it was rounded, 2 where it is gone to infinity.
#[tactic(auto, using(float_ground::proofs::Losses::carried))]
pub fn nz_narrow_told(x: f64, loss: &mut u32) -> f32
    ensures value { result ≡ narrow_of x }
    ensures loss { loss.new ≡ loss_of (narrowed_of x) }
{
    let n = float_ground::narrow(x);
    *loss = n.loss();
    n.value()
}

pub fn nz_sqrt_f32(x: f32) -> f32
    ensures equal { result ≡ root_of binary32 x }
    ensures nearest { Root binary32 x result }
{
    float_ground::sqrt_f32(x)
}

pub fn nz_sqrt_f64(x: f64) -> f64
    ensures equal { result ≡ root_of binary64 x }
    ensures nearest { Root binary64 x result }
{
    float_ground::sqrt_f64(x)
}

// Whether the product of a point's coordinates is finite.
pub fn nz_point_is_finite(x: f32, y: f32) -> bool
    ensures { result ≡ point_finite (point_from x y) }
{
    Point { x, y }.is_finite()
}
