// A transform of the plane: six numbers, by value. Carried over from `transform.rs` of tiny-skia-path 0.12.0.
#![tactic(auto)]

ghost use Rattle.std.specs.Prelude.{◌≡◌};
ghost use Rattle.transform.specs.Row.{row_of, identity_row, translate_of, scale_of, skew_of};

mod concat;
mod entry;
mod invert;
mod kinds;
mod map;
mod scalar;

pub use invert::Refusal;
pub use kinds::Scale;

// A point (x, y) goes to (sx * x + kx * y + tx, ky * x + sy * y + ty).
#[derive(Clone, Copy)]
pub struct Transform {
    pub sx: f32,
    pub kx: f32,
    pub ky: f32,
    pub sy: f32,
    pub tx: f32,
    pub ty: f32,
}

// A transform that was computed from others, and whether some narrowing to f32 on the way was not exact: both are always there.
#[derive(Clone, Copy)]
pub struct Computed {
    pub transform: Transform,
    pub rounded: bool,
}

impl Transform {
    // Moves nothing.
    pub const IDENTITY: Transform = Transform {
        sx: 1.0,
        kx: 0.0,
        ky: 0.0,
        sy: 1.0,
        tx: 0.0,
        ty: 0.0,
    };

    // The transform that moves nothing.
    pub fn identity() -> Self
        ensures { result ≡ identity_row }
    {
        Transform::IDENTITY
    }

    // The transform of these six numbers, column by column: ky stands before kx.
    pub fn from_row(sx: f32, ky: f32, kx: f32, sy: f32, tx: f32, ty: f32) -> Self
        ensures { result ≡ row_of sx ky kx sy tx ty }
    {
        Transform {
            sx,
            kx,
            ky,
            sy,
            tx,
            ty,
        }
    }

    // Moves by (tx, ty).
    #[tactic(auto, unfolding(crate::specs::Row::translate_of))]
    pub fn from_translate(tx: f32, ty: f32) -> Self
        ensures { result ≡ translate_of tx ty }
    {
        Transform::from_row(1.0, 0.0, 0.0, 1.0, tx, ty)
    }

    // Scales by sx across and by sy up.
    #[tactic(auto, unfolding(crate::specs::Row::scale_of))]
    pub fn from_scale(sx: f32, sy: f32) -> Self
        ensures { result ≡ scale_of sx sy }
    {
        Transform::from_row(sx, 0.0, 0.0, sy, 0.0, 0.0)
    }

    // Skews by kx across and by ky up.
    pub fn from_skew(kx: f32, ky: f32) -> Self
        ensures { result ≡ skew_of kx ky }
    {
        Transform::from_row(1.0, ky, kx, 1.0, 0.0, 0.0)
    }
}
