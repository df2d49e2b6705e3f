// The calls that are lent a buffer of any length: the first places of a longer one, all of which count.
use super::sum::Sum;

// How many places a chop has to choose from; and a cut: as many as that of the judge's cuts, `LENT` in oracle/of_conics.rs.
pub const CHOP: usize = 20;

pub const CUT: usize = 520;

// What a call gives that is lent the first `room` places; where there are fewer it is not made.
pub fn lent<const N: usize, F: FnOnce(&mut [f32]) -> u32>(
    mut buffer: [f32; N],
    room: usize,
    call: F,
) -> Sum
    requires { F.IsAlwaysCallable call }
{
    if room > N {
        return Sum::START;
    }
    let number = call(&mut buffer[..room]);
    Sum::START.word(number).floats(&buffer)
}
