// Numbers that are nearly zero. Carried over from `scalar.rs` of tiny-skia-path 0.12.0.
ghost use Rattle.std.specs.Prelude.{◌≡◌};
ghost use Rattle.transform.specs.Kinds.{nearly_zero};

// Whether x is at most this far from zero.
pub fn is_nearly_zero_within_tolerance(x: f32, tolerance: f32) -> bool
    ensures { result ≡ nearly_zero x tolerance }
{
    float_ground::abs_f32(x) <= tolerance
}
