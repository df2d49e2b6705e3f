// What all conics of one depth of a cut share, for a cut to compute once a depth. A single conic is halved by
// `Conic::chop_by_rule`.
#![tactic(auto, unfolding(crate::specs::Chop::chop_at))]

ghost use Rattle.std.specs.Prelude.{◌≡◌};
ghost use Rattle.conic.specs.Chop.{scale_of, depth_of, chop_at};

use crate::{Conic, Halves, chopping};

// The scale of a chop, and the weight of the halves.
#[derive(Clone, Copy)]
pub struct Depth {
    pub scale: f32,
    pub weight: f32,
}

impl Depth {
    // The scale, by the conics' weight.
    pub fn scale_of(weight: f32) -> f32
        ensures { result ≡ scale_of weight }
    {
        1.0 / (1.0 + weight)
    }

    // Both, by the conics' weight.
    pub fn of(weight: f32) -> Depth
        ensures { result ≡ depth_of weight }
    {
        Depth {
            scale: Depth::scale_of(weight),
            weight: Conic::subdivide_weight_value(weight),
        }
    }

    // Both halves of c, moved into order as its rule asks.
    pub fn chop(self, c: Conic) -> Halves
        ensures { result ≡ chop_at self c }
    {
        let l = chopping::chopped(c, self.scale);
        chopping::halves(c, chopping::mended(c, l), self.weight)
    }
}
