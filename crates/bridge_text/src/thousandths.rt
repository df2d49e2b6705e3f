// The size of a float in thousandths, by whole numbers alone: no step is rounded but the last.
ghost use Rattle.std.specs.Prelude.{◌≡◌, ◌*◌, ◌^◌, ◌≤◌, ◌<◌, min};
ghost use Rattle.bridge_text.specs.Thousandths.{nearest_up, held_of, thousandths_of};

// Where a size is held: a number of so many thousandths is not written.
const MOST: u64 = 1000000000000;

// q * 2^j in thousandths. Here and below q is a float's significand, a number that `thousandths` takes apart once.
fn whole(q: u64, j: u64) -> u64
    requires significand { q < 2 ^ 24 }
    requires shift { j < 16 }
    ensures { result ≡ min (1000 * (q * 2 ^ j)) 1000000000000 }
{
    (1000 * (q << j)).min(MOST)
}

// q / 2^k in thousandths, half of one counted up.
fn part(q: u64, k: u64) -> u64
    requires significand { q < 2 ^ 24 }
    requires places { k ≤ 40 }
    ensures { result ≡ nearest_up (1000 * q) (2 ^ k) }
{
    let p = 1u64 << k;
    (2 * (1000 * q) + p) / (2 * p)
}

// q * 2^x / 2^149 in thousandths.
fn scaled(q: u64, x: u64) -> u64
    requires significand { q < 2 ^ 24 }
    requires normal { (0 < x → 2 ^ 23 ≤ q) }
    ensures { result ≡ held_of (q * 2 ^ x) (2 ^ 149) }
{
    if x > 164 {
        return MOST;
    }
    if x >= 149 {
        return whole(q, x - 149);
    }
    if x < 109 {
        return 0;
    }
    part(q, 149 - x).min(MOST)
}

// The size of v in thousandths: the nearest whole number of them, and the larger where two are as near.
pub fn thousandths(v: f32) -> u64
    ensures { result ≡ thousandths_of v }
{
    if v.is_nan() {
        return MOST;
    }
    let b = f32::to_bits(v) as u64;
    let field = b % 0x8000_0000 / 0x80_0000;
    let t = b % 0x80_0000;
    if field == 255 {
        return MOST;
    }
    if field == 0 {
        return scaled(t, 0);
    }
    scaled(t + 0x80_0000, field - 1)
}
