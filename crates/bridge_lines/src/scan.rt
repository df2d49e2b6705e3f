// Where the next byte of a kind is, and a line's words.
ghost use Rattle.std.specs.Prelude.{◌≡◌, ◌+◌, ◌≤◌, [], length, drop, slice_index_or};
ghost use Rattle.bridge_lines.specs.Kinds.{is_of};
ghost use Rattle.bridge_lines.specs.Words.{before, words_of};

// What is looked for, an enum and no closure, since the words of a line are defined by it (`is_of` and `before` of specs/).
#[derive(Clone, Copy)]
pub enum Kind {
    Blank,
    NoBlank,
    Point,
    Hash,
}

#[tactic(auto, unfolding(crate::specs::Kinds::is_of))]
fn is_of(kind: Kind, b: u8) -> bool
    ensures { result ≡ is_of kind b }
{
    match kind {
        Kind::Blank => matches!(b, b' ' | b'\t' | b'\r'),
        Kind::NoBlank => !matches!(b, b' ' | b'\t' | b'\r'),
        Kind::Point => b == b'.',
        Kind::Hash => b == b'#',
    }
}

// Where the first byte of a kind is, from `at` on; the end where there is none. By places: each word is looked for like this, and
// `position` over what is left takes a third more instructions (docs/SPEED.md).
pub fn first(s: &[u8], at: usize, kind: Kind) -> usize
    requires { at ≤ length s.now }
    ensures { (result ≤ length s.now) × (result ≡ at + length (before (is_of kind) (drop at s.now))) }
{
    for i in at..s.len() {
        if is_of(kind, s[i]) {
            return i;
        }
    }
    s.len()
}

// The word with k words before it, and an empty one where there is none. A line is short, so that each is looked for
// from the start, by its number: what is wrong is told by that number, and an iterator over words would have to be counted.
pub fn word(text: &[u8], k: u32) -> &[u8]
    ensures { result.now ≡ slice_index_or (words_of text.now) k [] }
{
    let mut at = first(text, 0, Kind::NoBlank);
    for passed in 0..k {
        let end = first(text, at, Kind::Blank);
        at = first(text, end, Kind::NoBlank);
    }
    let end = first(text, at, Kind::Blank);
    &text[at..end]
}
