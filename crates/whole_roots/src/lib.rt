// The nearest whole number to a root, from a stored table. The roots of floats are computed by it.
#![tactic(auto)]

ghost use Rattle.std.specs.Prelude.{◌≡◌, ◌*◌, ◌^◌};
ghost use Rattle.whole_roots.specs.Table.{entry_of, has_entry, nearest_root, radicand};

mod packed;
mod steps;
mod table;

fn has_entry(k: u32) -> bool
    ensures { result ≡ has_entry k }
{
    (256 <= k) & (k < 1024)
}

// The table's entry for k: the whole part of the root of k * 65536, for k from 256 to 1023; 0 for any other k, which is no entry, as
// the definition `entry_of` has it.
#[tactic(auto, using(crate::proofs::Only::inside, crate::proofs::Only::entry_is, crate::proofs::Only::no_entry))]
pub fn table_entry(k: u32) -> u32
    ensures { result ≡ entry_of k }
{
    if has_entry(k) {
        return table::entry(k);
    }
    0
}

// The same entry, as the roots read it.
#[tactic(auto, using(crate::proofs::Only::inside, crate::proofs::Only::entry_is, crate::proofs::Only::no_entry))]
pub fn packed_entry(k: u32) -> u32
    ensures { result ≡ entry_of k }
{
    if has_entry(k) {
        return packed::entry(k);
    }
    0
}

// How many entries, from the first on, the roots read as the table has them: all 768.
pub fn read_alike() -> u32
    ensures { result ≡ 768 }
{
    for k in 256..1024 {
        if table_entry(k) != packed_entry(k) {
            return k - 256;
        }
    }
    768
}

// The root of n * 2^16 to the nearest whole number, from 2^23 to 2^24: n has a leading 1 at 2^31 and below it the digits of t,
// and is halved where g is even.
pub fn root24(g: u32, t: u32) -> u32
    ensures { result ≡ nearest_root (radicand 31 g t * 2 ^ 16) }
{
    steps::nearest24((t % 0x8000_0000 + 0x8000_0000) >> (1 - g % 2))
}

// The root of n * 2^52 to the nearest whole number, from 2^52 to 2^53: n has a leading 1 at 2^53 and below it the digits of t,
// and is halved where g is even. Generic over u32 and u64, it and `root24` would ask for a trait with each operator and what that
// requires, which is no plainer.
pub fn root53(g: u64, t: u64) -> u64
    ensures { result ≡ nearest_root (radicand 53 g t * 2 ^ 52) }
{
    steps::nearest53((t % 0x20_0000_0000_0000 + 0x20_0000_0000_0000) >> (1 - g % 2))
}
