// Numbers of two and four bytes, the low byte first: each call is a line of its own size, since no trait of the library has
// `from_le_bytes` and `to_le_bytes` for both, and its contract has the bytes of that size (`half` and `word`, `two` and `four`). The
// bytes and an offset go side by side, since a refusal tells the offset.
ghost use Rattle.std.specs.Prelude.{◌≡◌, ◌+◌, ◌*◌, ◌≤◌, length};
ghost use Rattle.std.proofs.lemmas.List.Edits.{sets};
ghost use Rattle.records.specs.Numbers.{two, four, half, word, words_at};

#[tactic(auto, unfolding(crate::specs::Numbers::half))]
pub fn half_at(bytes: &[u8], at: usize) -> u16
    requires { at + 2 ≤ length bytes.now }
    ensures { result ≡ half bytes.now at }
{
    u16::from_le_bytes([bytes[at], bytes[at + 1]])
}

#[tactic(auto, unfolding(crate::specs::Numbers::word))]
pub fn word_at(bytes: &[u8], at: usize) -> u32
    requires { at + 4 ≤ length bytes.now }
    ensures { result ≡ word bytes.now at }
{
    u32::from_le_bytes([bytes[at], bytes[at + 1], bytes[at + 2], bytes[at + 3]])
}

// As many words as are asked for, from an offset on, which moves by a word.
pub fn words_at<const N: usize>(bytes: &[u8], at: usize) -> [u32; N]
    requires { at + 4 * N ≤ length bytes.now }
    ensures { result ≡ words_at bytes.now at N }
{
    let mut words = [0; N];
    let mut next = at;
    for word in &mut words {
        *word = word_at(bytes, next);
        next += 4;
    }
    words
}

pub fn put_half(out: &mut [u8], at: usize, n: u16)
    requires { at + 2 ≤ length out.old }
    ensures { out.new ≡ sets out.old at (two n) }
{
    out[at..at + 2].copy_from_slice(&n.to_le_bytes());
}

pub fn put_word(out: &mut [u8], at: usize, n: u32)
    requires { at + 4 ≤ length out.old }
    ensures { out.new ≡ sets out.old at (four n) }
{
    out[at..at + 4].copy_from_slice(&n.to_le_bytes());
}
