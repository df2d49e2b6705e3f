// What kind of transform it is. Carried over from `transform.rs` of tiny-skia-path 0.12.0.
ghost use Rattle.std.specs.Prelude.{◌≡◌};
ghost use Rattle.transform.specs.Kinds.{has_scale, has_skew, has_translate, has_only, is_identity, is_scale, is_skew, is_translate, is_scale_translate, is_finite, is_valid, scales_of};

use super::Transform;
use super::scalar::is_nearly_zero_within_tolerance;
use float_ground::{is_finite_f32, sqrt_f32};

// How much a transform scales, across and up.
#[derive(Clone, Copy)]
pub struct Scale {
    pub x: f32,
    pub y: f32,
}

impl Transform {
    // Whether it scales.
    pub fn has_scale(self) -> bool
        ensures { result ≡ has_scale self }
    {
        (self.sx != 1.0) | (self.sy != 1.0)
    }

    // Whether it skews.
    pub fn has_skew(self) -> bool
        ensures { result ≡ has_skew self }
    {
        (self.kx != 0.0) | (self.ky != 0.0)
    }

    // Whether it moves.
    pub fn has_translate(self) -> bool
        ensures { result ≡ has_translate self }
    {
        (self.tx != 0.0) | (self.ty != 0.0)
    }

    // Whether it has these parts and no others.
    #[tactic(auto, unfolding(crate::specs::Kinds::has_only))]
    fn has_only(self, scale: bool, skew: bool, translate: bool) -> bool
        ensures { result ≡ has_only scale skew translate self }
    {
        (self.has_scale() == scale)
            & (self.has_skew() == skew)
            & (self.has_translate() == translate)
    }

    // Whether it does nothing.
    pub fn is_identity(self) -> bool
        ensures { result ≡ is_identity self }
    {
        self.has_only(false, false, false)
    }

    // Whether it scales and does nothing else.
    pub fn is_scale(self) -> bool
        ensures { result ≡ is_scale self }
    {
        self.has_only(true, false, false)
    }

    // Whether it skews and does nothing else.
    pub fn is_skew(self) -> bool
        ensures { result ≡ is_skew self }
    {
        self.has_only(false, true, false)
    }

    // Whether it moves and does nothing else.
    pub fn is_translate(self) -> bool
        ensures { result ≡ is_translate self }
    {
        self.has_only(false, false, true)
    }

    // Whether it scales or moves, and does not skew.
    #[tactic(auto, unfolding(crate::specs::Kinds::is_scale_translate))]
    pub fn is_scale_translate(self) -> bool
        ensures { result ≡ is_scale_translate self }
    {
        (self.has_scale() | self.has_translate()) & !self.has_skew()
    }

    // Whether all six numbers are finite.
    #[tactic(auto, unfolding(crate::specs::Kinds::is_finite))]
    pub fn is_finite(self) -> bool
        ensures { result ≡ is_finite self }
    {
        is_finite_f32(self.sx)
            & is_finite_f32(self.ky)
            & is_finite_f32(self.kx)
            & is_finite_f32(self.sy)
            & is_finite_f32(self.tx)
            & is_finite_f32(self.ty)
    }

    // How much it scales, across and up.
    #[tactic(auto, unfolding(crate::specs::Kinds::scales_of))]
    pub fn get_scale(self) -> Scale
        ensures { result ≡ scales_of self }
    {
        Scale {
            x: sqrt_f32(self.sx * self.sx + self.kx * self.kx),
            y: sqrt_f32(self.ky * self.ky + self.sy * self.sy),
        }
    }

    // Whether it is finite and scales both across and up: a scale of at most `f32::EPSILON` counts as none.
    pub fn is_valid(self) -> bool
        ensures { result ≡ is_valid self }
    {
        let scale = self.get_scale();
        self.is_finite()
            & !(is_nearly_zero_within_tolerance(scale.x, f32::EPSILON)
                | is_nearly_zero_within_tolerance(scale.y, f32::EPSILON))
    }
}
