// Storing a record.
ghost use Rattle.std.specs.Prelude.{◌≡◌, ◌+◌, ◌*◌, ◌<◌, ◌≤◌, length};
ghost use Rattle.std.proofs.lemmas.List.Edits.{sets};
ghost use Rattle.records.specs.Kinds.{number_of_kind};
ghost use Rattle.records.specs.Numbers.{fours, AllBelow};
ghost use Rattle.records.specs.Record.{bytes_for};
ghost use Rattle.records.specs.Writing.{stored_answer, stored_over};

use crate::numbers::{put_half, put_word};
use crate::{Kind, Refusal};

fn put_words(out: &mut [u8], at: usize, words: &[u32])
    requires { at + 4 * length words.now ≤ length out.old }
    ensures { out.new ≡ sets out.old at (fours words.now) }
{
    let mut next = at;
    for word in words {
        put_word(out, next, *word);
        next += 4;
    }
}

// Stores the length, the kind and the words, where they fit.
pub fn put(out: &mut [u8], at: usize, kind: Kind, words: &[u32]) -> Result<usize, Refusal>
    requires { length words.now < 8 }
    ensures value { result ≡ stored_answer out.old at (bytes_for (number_of_kind kind) words.now) }
    ensures stored { out.new ≡ stored_over out.old at (bytes_for (number_of_kind kind) words.now) }
    ensures below { AllBelow words.now }
{
    let size = 6 + 4 * words.len();
    if out.len().saturating_sub(at) < size {
        return Err(Refusal::BufferTooShort);
    }
    put_word(out, at, (size - 4) as u32);
    put_half(out, at + 4, kind.number() as u16);
    put_words(out, at + 6, words);
    Ok(at + size)
}
