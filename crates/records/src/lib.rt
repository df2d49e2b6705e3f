// The correction journal: records over bytes, read at an offset and written at one into a lent buffer. A record is the length of
// what follows it in four bytes, its kind in two, and its words in four each, all with the low byte first. What was written
// before a power cut is read after it, whatever byte the cut was at: specs/Laws.antt. Written from docs/RULES.md, "The journal".
#![tactic(auto)]

ghost use Rattle.std.specs.Prelude.{◌≡◌};
ghost use Rattle.records.specs.Answers.{number_of_refusal, refusal_numbers, number_of_refused, refused_numbers};
ghost use Rattle.records.specs.Kinds.{number_of_kind};
ghost use Rattle.records.specs.Reading.{read_of, end_of};
ghost use Rattle.records.specs.Record.{Fits, kind_of, words_over};
ghost use Rattle.records.specs.Writing.{write_answer, written_over, Payload, words_answer, words_written};

use answers::Numbered;
pub use kinds::Kind;

mod kinds;
mod numbers;
mod store;

// A conic's points and its weight, each number as the 32 bits of its f32, so that a NaN keeps its own. The rule is left out.
#[derive(Clone, Copy)]
pub struct ConicBits {
    pub x0: u32,
    pub y0: u32,
    pub x1: u32,
    pub y1: u32,
    pub x2: u32,
    pub y2: u32,
    pub weight: u32,
}

// A matrix in the order of `from_row`, each number as the 32 bits of its f32.
#[derive(Clone, Copy)]
pub struct TransformBits {
    pub sx: u32,
    pub ky: u32,
    pub kx: u32,
    pub sy: u32,
    pub tx: u32,
    pub ty: u32,
}

// Kinds 1, 2 and 3. A correction is in milliseconds.
#[derive(Clone, Copy)]
pub enum Record {
    Conic(ConicBits),
    Transform(TransformBits),
    Correction(i32),
}

// Why a call does nothing.
#[derive(Clone, Copy, Debug, PartialEq, Eq)]
pub enum Refusal {
    // The record does not fit into the buffer.
    BufferTooShort,
    // The length is below 2, or another than the kind has.
    BadLength,
    // There is no such kind.
    UnknownKind,
}

impl Numbered for Refusal {
    ghost number_of = { number_of_refusal };

    ghost above_zero = { refusal_numbers };

    fn number(self) -> u32 {
        match self {
            Refusal::BufferTooShort => 2,
            Refusal::BadLength => 17,
            Refusal::UnknownKind => 18,
        }
    }
}

// What no journal has, and the offset of that record.
#[derive(Clone, Copy, Debug, PartialEq, Eq)]
pub struct Refused {
    pub why: Refusal,
    pub at: usize,
}

impl Numbered for Refused {
    ghost number_of = { number_of_refused };

    ghost above_zero = { refused_numbers };

    fn number(self) -> u32 {
        self.why.number()
    }
}

// What stands at an offset: a whole record, and the offset behind it; nothing; or a record that is cut off.
#[derive(Clone, Copy)]
pub enum Found {
    Whole(Record, usize),
    End,
    Short,
}

impl Record {
    // The numbers of include/nyerdzumak.h, to which tools/header holds these.
    pub const KIND_CONIC: u32 = 1;

    pub const KIND_TRANSFORM: u32 = 2;

    pub const KIND_CORRECTION: u32 = 3;

    // How many bytes the longest record has, a conic's.
    pub const MAX_RECORD: u32 = 34;

    pub fn kind(self) -> Kind
        ensures { number_of_kind result ≡ kind_of self }
    {
        match self {
            Record::Conic(_) => Kind::Conic,
            Record::Transform(_) => Kind::Transform,
            Record::Correction(_) => Kind::Correction,
        }
    }

    // Stores its words: seven, six or one. The others keep their contents, since the memory is C's.
    pub fn store_words(self, words: &mut [u32; 7])
        ensures words_after { words.new ≡ words_over self words.old }
        ensures fits { Fits self }
    {
        match self {
            Record::Conic(c) => *words = [c.x0, c.y0, c.x1, c.y1, c.x2, c.y2, c.weight],
            Record::Transform(t) => {
                words[..6].copy_from_slice(&[t.sx, t.ky, t.kx, t.sy, t.tx, t.ty]);
            }
            Record::Correction(z) => words[0] = z.cast_unsigned(),
        }
    }
}

// What stands at an offset of a journal; past its end there is nothing.
#[tactic(auto, using(crate::proofs::Judged::judged))]
pub fn read(journal: &[u8], at: usize) -> Result<Found, Refused>
    ensures { result ≡ read_of journal.now at }
{
    if journal.len() <= at {
        return Ok(Found::End);
    }
    let left = journal.len() - at;
    if left < 4 {
        return Ok(Found::Short);
    }
    let size = numbers::word_at(journal, at) as usize;
    if size < 2 {
        return Err(Refused {
            why: Refusal::BadLength,
            at,
        });
    }
    if left < 6 {
        return Ok(Found::Short);
    }
    let number = numbers::half_at(journal, at + 4) as u32;
    let Ok(kind) = Kind::try_from(number) else {
        return Err(Refused {
            why: Refusal::UnknownKind,
            at,
        });
    };
    if size != 2 + 4 * kind.words() {
        return Err(Refused {
            why: Refusal::BadLength,
            at,
        });
    }
    if left < 4 + size {
        return Ok(Found::Short);
    }
    let record = kinds::record_at(journal, at + 6, kind);
    Ok(Found::Whole(record, at + 4 + size))
}

// Writes a record at an offset, where it fits; and the offset behind it. That its numbers have 32 bits is what the laws of a
// journal ask of it.
pub fn write(journal: &mut [u8], at: usize, r: Record) -> Result<usize, Refusal>
    ensures value { result ≡ write_answer journal.old at r }
    ensures journal { journal.new ≡ written_over journal.old at r }
    ensures fits { Fits r }
{
    let mut words = [0u32; 7];
    r.store_words(&mut words);
    let kind = r.kind();
    let own = &words[..kind.words()];
    store::put(journal, at, kind, own)
}

// Writes the record of a kind with the first seven, six or one of these words, where there is such a kind and it fits; and the
// offset behind it. C gives the kind as a number.
pub fn write_words(
    journal: &mut [u8],
    at: usize,
    kind: u32,
    words: &[u32; 7],
) -> Result<usize, Refusal>
    ensures value { result ≡ words_answer journal.old at kind words.now }
    ensures journal { journal.new ≡ words_written journal.old at kind words.now }
    ensures words { Payload kind words.now }
{
    let kind = Kind::try_from(kind)?;
    store::put(journal, at, kind, &words[..kind.words()])
}

// The offset behind the last whole record of a journal, read from its start: where to write on.
pub fn find_end(journal: &[u8]) -> Result<usize, Refused>
    ensures { result ≡ end_of journal.now }
{
    let mut at = 0;
    while let Found::Whole(_, next) = read(journal, at)? {
        at = next;
    }
    Ok(at)
}
