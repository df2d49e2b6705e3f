// The square root of a number above zero, from its pattern.
ghost use Rattle.std.specs.Prelude.{◌≡◌, ◌%◌, ◌≤◌, ◌<◌};
ghost use Rattle.std.specs.Float.{binary32, binary64};
ghost use Rattle.std.specs.Float.Ieee.{of_bits};
ghost use Rattle.float_laws.specs.Root.{root_of};
ghost use Rattle.float_ground.specs.Parts.{RootBy};

// The root of m * 2^g / 2^283, where m has a leading 1 at 2^31 and below it the digits of t: the whole number nearest to the
// root of m's digits, put behind half of g. The leading 1 of that number adds one to the field.
fn root32(g: u32, t: u32) -> f32
    requires exponent { g ≤ 379 }
    requires even { t % 2 ≡ 0 }
    ensures { RootBy binary32 g t result }
{
    f32::from_bits((g >> 1) * 0x80_0000 + whole_roots::root24(g, t))
}

// The root of the normal number that b is the pattern of: m * 2^(field - 158).
pub fn normal32(b: u32) -> f32
    requires low { 0x80_0000 ≤ b }
    requires high { b < 0x7f80_0000 }
    ensures { result ≡ root_of binary32 (of_bits binary32 b) }
{
    root32((b >> 23) + 125, b << 8)
}

// The root of the subnormal number that b is the pattern of: b * 2^-149. Its leading zeros give the shift to normal form.
pub fn subnormal32(b: u32) -> f32
    requires low { 0 < b }
    requires high { b < 0x80_0000 }
    ensures { result ≡ root_of binary32 (of_bits binary32 b) }
{
    let z = u32::leading_zeros(b);
    root32(134 - z, b << z)
}

// The root of m * 2^g / 2^2097, where m has a leading 1 at 2^53 and below it the digits of t, as `root32` has it.
fn root64(g: u64, t: u64) -> f64
    requires exponent { g ≤ 3067 }
    requires even { t % 2 ≡ 0 }
    ensures { RootBy binary64 g t result }
{
    f64::from_bits((g >> 1) * 0x10_0000_0000_0000 + whole_roots::root53(g, t))
}

// The root of the normal number that b is the pattern of: m * 2^(field - 1076).
pub fn normal64(b: u64) -> f64
    requires low { 0x10_0000_0000_0000 ≤ b }
    requires high { b < 0x7ff0_0000_0000_0000 }
    ensures { result ≡ root_of binary64 (of_bits binary64 b) }
{
    root64((b >> 52) + 1021, b << 1)
}

// The root of the subnormal number that b is the pattern of: b * 2^-1074. Its leading zeros but ten, since m has 54 places,
// give the shift to normal form.
pub fn subnormal64(b: u64) -> f64
    requires low { 0 < b }
    requires high { b < 0x10_0000_0000_0000 }
    ensures { result ≡ root_of binary64 (of_bits binary64 b) }
{
    let z = (u64::leading_zeros(b) - 10) as u64;
    root64(1023 - z, b << z)
}
