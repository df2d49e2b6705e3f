// Exports the float ground's calls and the finite test of a point, each one call of the function of the same name of
// nyerdzumak, with its contract: nz_is_finite_f32, nz_is_finite_f64, nz_abs_f32, nz_widen, nz_narrow, nz_narrow_told,
// nz_sqrt_f32, nz_sqrt_f64, nz_point_is_finite.
ghost use Rattle.std.specs.Prelude.{◌≡◌};
ghost use Rattle.std.specs.Float.{binary32, binary64};
ghost use Rattle.std.specs.Float.Ieee.Scale.{finite};
ghost use Rattle.float_laws.specs.Absolute.{abs_of};
ghost use Rattle.float_laws.specs.Narrow.{narrow_of};
ghost use Rattle.float_laws.specs.Root.{Root, root_of};
ghost use Rattle.float_ground.specs.Narrowed.{narrowed_of, loss_of};
ghost use Rattle.point.specs.Point.{point_from, point_finite};

#[unsafe(no_mangle)]
pub extern "C" fn nz_is_finite_f32(x: f32) -> bool
    ensures { result ≡ finite x }
{
    nyerdzumak::ground::nz_is_finite_f32(x)
}

#[unsafe(no_mangle)]
pub extern "C" fn nz_is_finite_f64(x: f64) -> bool
    ensures { result ≡ finite x }
{
    nyerdzumak::ground::nz_is_finite_f64(x)
}

#[unsafe(no_mangle)]
pub extern "C" fn nz_abs_f32(x: f32) -> f32
    ensures { result ≡ abs_of x }
{
    nyerdzumak::ground::nz_abs_f32(x)
}

#[unsafe(no_mangle)]
pub extern "C" fn nz_widen(x: f32) -> f64
    ensures { result ≡ x }
{
    nyerdzumak::ground::nz_widen(x)
}

#[unsafe(no_mangle)]
pub extern "C" fn nz_narrow(x: f64) -> f32
    ensures { result ≡ narrow_of x }
{
    nyerdzumak::ground::nz_narrow(x)
}

// The same, and what was lost: 0 for nothing, 1 where it was rounded, 2 where it is gone to infinity.
#[unsafe(no_mangle)]
pub extern "C" fn nz_narrow_told(x: f64, loss: &mut u32) -> f32
    ensures value { result ≡ narrow_of x }
    ensures loss { loss.new ≡ loss_of (narrowed_of x) }
{
    nyerdzumak::ground::nz_narrow_told(x, loss)
}

#[unsafe(no_mangle)]
pub extern "C" fn nz_sqrt_f32(x: f32) -> f32
    ensures equal { result ≡ root_of binary32 x }
    ensures nearest { Root binary32 x result }
{
    nyerdzumak::ground::nz_sqrt_f32(x)
}

#[unsafe(no_mangle)]
pub extern "C" fn nz_sqrt_f64(x: f64) -> f64
    ensures equal { result ≡ root_of binary64 x }
    ensures nearest { Root binary64 x result }
{
    nyerdzumak::ground::nz_sqrt_f64(x)
}

// Whether the product of a point's coordinates is finite.
#[unsafe(no_mangle)]
pub extern "C" fn nz_point_is_finite(x: f32, y: f32) -> bool
    ensures { result ≡ point_finite (point_from x y) }
{
    nyerdzumak::ground::nz_point_is_finite(x, y)
}
