// The calls that are lent places of a fixed number, all of which count, and answer a number.
use super::sum;
use super::sum::Sum;
use nyerdzumak::roots;

// What a call gives that stores over one place.
pub fn one<F: FnOnce(&mut f32) -> u32>(call: F) -> Sum
    requires { F.IsAlwaysCallable call }
{
    let mut place = 7000.0f32;
    let answer = call(&mut place);
    Sum::START.word(answer).float(place)
}

// What a call gives that stores over two.
pub fn two<F: FnOnce(&mut [f32; 2]) -> u32>(call: F) -> Sum
    requires { F.IsAlwaysCallable call }
{
    let mut places = sum::standing();
    let answer = call(&mut places);
    Sum::START.word(answer).floats(&places)
}

// What the call gives that answers a number and stores how many roots there are, and where.
pub fn find_cubic_inflections(src: &[f32]) -> Sum {
    let mut places = sum::standing();
    let mut count = 77;
    let number = roots::nz_find_cubic_inflections(src, &mut places, &mut count);
    Sum::START.word(number).word(count).floats(&places)
}
