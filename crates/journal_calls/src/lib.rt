// The correction journal for a caller that has numbers and lent memory alone, as C has: what is answered is a number, and the
// rest is stored. A record's numbers go as words of 32 bits, a float's as its pattern, so that a NaN keeps its bits.
#![tactic(auto)]

ghost use Rattle.std.specs.Prelude.{◌≡◌};
ghost use Rattle.records.specs.Answers.{number_of_found, what_of_found, kind_of_found, words_of_found, next_of_found};
ghost use Rattle.journal_calls.specs.Calls.{first_or, ReadInto, WrittenFrom, EndInto};

use records::{Found, Refused};

// What is told of an offset where a whole record stands,
pub const JOURNAL_RECORD: u32 = 0;

// where there is none,
pub const JOURNAL_END: u32 = 1;

// and where one is cut off.
pub const JOURNAL_SHORT: u32 = 2;

// Stores what stands at an offset, and where to go on; and the answer's number.
fn give_found(
    found: Result<Found, Refused>,
    at: usize,
    what: &mut u32,
    kind: &mut u32,
    words: &mut [u32; 7],
    next: &mut usize,
) -> u32
    ensures value { result ≡ number_of_found found }
    ensures what { what.new ≡ first_or what.old (what_of_found found) }
    ensures kind { kind.new ≡ first_or kind.old (kind_of_found found) }
    ensures words { words.new ≡ words_of_found found words.old }
    ensures next { next.new ≡ next_of_found at found }
{
    match found {
        Ok(Found::Whole(r, behind)) => {
            *what = JOURNAL_RECORD;
            *kind = r.kind().number();
            r.store_words(words);
            *next = behind;
        }
        Ok(Found::End) => {
            *what = JOURNAL_END;
            *next = at;
        }
        Ok(Found::Short) => {
            *what = JOURNAL_SHORT;
            *next = at;
        }
        Err(refused) => *next = refused.at,
    }
    answers::number(found)
}

// What stands at an offset of a journal: a record, with its kind and its words, the end, or a record that is cut off. `next` is
// where to go on, which beside a refusal is the offset of the record that is refused.
pub fn read_into(
    journal: &[u8],
    at: usize,
    what: &mut u32,
    kind: &mut u32,
    words: &mut [u32; 7],
    next: &mut usize,
) -> u32
    ensures { ReadInto journal.now at result what.old what.new kind.old kind.new
        words.old words.new next.new }
{
    give_found(records::read(journal, at), at, what, kind, words, next)
}

// Writes the record of a kind and its words at an offset of a journal, where there is such a kind and it fits.
pub fn write_from(
    journal: &mut [u8],
    at: usize,
    kind: u32,
    words: &[u32; 7],
    next: &mut usize,
) -> u32
    ensures { WrittenFrom journal.old journal.new at kind words.now result next.old next.new }
{
    answers::give(records::write_words(journal, at, kind, words), next)
}

// The offset behind the last whole record of a journal, read from its start: where to write on. A refused record is no such
// place, and its offset is stored instead.
pub fn end_into(journal: &[u8], end: &mut usize) -> u32
    ensures { EndInto journal.now result end.new }
{
    let answer = records::find_end(journal);
    *end = match answer {
        Ok(place) => place,
        Err(refused) => refused.at,
    };
    answers::number(answer)
}
