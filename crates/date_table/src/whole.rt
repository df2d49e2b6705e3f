// Floats as whole numbers.
ghost use Rattle.std.specs.Prelude.{◌≡◌, T};
ghost use Rattle.date_table.specs.Whole.{in_range, whole_of, LargestNotAbove};

// The largest number of a table.
pub const MAX_ENTRY: u32 = 16777216;

// The largest whole number not above x, for x from 0 to 16,777,216; -0 is not below 0. Else 16,777,217, which no table may
// hold, so that the test of a table refuses it.
pub fn round_down(x: f32) -> u32
    ensures value { result ≡ whole_of x }
    ensures meaning { T (in_range x) → LargestNotAbove x result }
{
    if (x >= 0.0) & (x <= 16777216.0) {
        return std::num::truncating_f32_to_u64(x) as u32;
    }
    MAX_ENTRY + 1
}
