// Lent numbers: x, then y, of each point.
ghost use Rattle.std.specs.Prelude.{◌≡◌};
ghost use Rattle.quads.specs.Answers.{number_of_refusal, number_of_chop, store_pick, store_answer, store_buffer};

use super::Refusal;

// Stores `new`, the points of a chop, over the first numbers of `dst`, if there is room.
pub fn store(dst: &mut [f32], new: &[f32]) -> Result<(), Refusal>
    ensures value { result ≡ store_answer dst.old new.now }
    ensures buffer { dst.new ≡ store_buffer dst.old new.now }
    ensures number { number_of_chop result ≡ store_pick dst.old new.now (number_of_refusal Refusal.BufferTooShort) 0 }
{
    if dst.len() < new.len() {
        return Err(Refusal::BufferTooShort);
    }
    dst[..new.len()].copy_from_slice(new);
    Ok(())
}
