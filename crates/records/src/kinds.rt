// The kinds of records, and what each holds.
ghost use Rattle.std.specs.Prelude.{◌≡◌, ◌+◌, ◌*◌, ◌<◌, ◌≤◌, length};
ghost use Rattle.records.specs.Kinds.{number_of_kind, Numbers};
ghost use Rattle.records.specs.Numbers.{words_at};
ghost use Rattle.records.specs.Record.{count_of, record_of};

use crate::numbers::{word_at, words_at};
use crate::{ConicBits, Record, Refusal, TransformBits};

// What a record is of.
#[derive(Clone, Copy, Debug, PartialEq, Eq)]
pub enum Kind {
    Conic,
    Transform,
    Correction,
}

impl Kind {
    // Its number, as a record has it.
    pub fn number(self) -> u32
        ensures { (result ≡ number_of_kind self) × (result < 4) }
    {
        match self {
            Kind::Conic => Record::KIND_CONIC,
            Kind::Transform => Record::KIND_TRANSFORM,
            Kind::Correction => Record::KIND_CORRECTION,
        }
    }

    // How many words a record of it has.
    #[tactic(auto, unfolding(crate::specs::Record::count_of))]
    pub fn words(self) -> usize
        ensures count { result ≡ count_of (number_of_kind self) }
        ensures few { (0 < result) × (result < 8) }
    {
        match self {
            Kind::Conic => 7,
            Kind::Transform => 6,
            Kind::Correction => 1,
        }
    }
}

impl TryFrom<u32> for Kind {
    type Error = Refusal;

    ghost try_from_gives = { Numbers };

    fn try_from(number: u32) -> Result<Kind, Refusal> {
        match number {
            Record::KIND_CONIC => Ok(Kind::Conic),
            Record::KIND_TRANSFORM => Ok(Kind::Transform),
            Record::KIND_CORRECTION => Ok(Kind::Correction),
            _ => Err(Refusal::UnknownKind),
        }
    }
}

// The record of a kind whose words stand at an offset. Its numbers are named here alone, so that no conversion from words is made a
// name of its own.
#[tactic(auto, unfolding(crate::specs::Record::count_of, crate::specs::Record::record_of))]
pub fn record_at(bytes: &[u8], at: usize, kind: Kind) -> Record
    requires { at + 4 * count_of (number_of_kind kind) ≤ length bytes.now }
    ensures { result ≡ record_of (number_of_kind kind) (words_at bytes.now at (count_of (number_of_kind kind))) }
{
    match kind {
        Kind::Conic => {
            let [x0, y0, x1, y1, x2, y2, weight] = words_at::<7>(bytes, at);
            Record::Conic(ConicBits {
                x0,
                y0,
                x1,
                y1,
                x2,
                y2,
                weight,
            })
        }
        Kind::Transform => {
            let [sx, ky, kx, sy, tx, ty] = words_at::<6>(bytes, at);
            Record::Transform(TransformBits {
                sx,
                ky,
                kx,
                sy,
                tx,
                ty,
            })
        }
        Kind::Correction => Record::Correction(word_at(bytes, at).cast_signed()),
    }
}
