// The calls for the correction journal: records over bytes, read at an offset and written at one. A record's numbers go as words
// of 32 bits, a float's as its pattern, so that a NaN keeps its bits.
ghost use Rattle.journal_calls.specs.Calls.{ReadInto, WrittenFrom, EndInto};

// What stands at an offset of a journal: a record, with its kind and its words, the end, or a record that is cut off. `next` is
// where to go on, which beside a refusal is the offset of the record that is refused.
pub fn nz_journal_read(
    journal: &[u8],
    at: usize,
    what: &mut u32,
    kind: &mut u32,
    words: &mut [u32; 7],
    next: &mut usize,
) -> u32
    ensures { ReadInto journal.now at result what.old what.new kind.old kind.new
        words.old words.new next.new }
{
    journal_calls::read_into(journal, at, what, kind, words, next)
}

// Writes the record of a kind and its words at an offset of a journal, where there is such a kind and it fits.
pub fn nz_journal_write(
    journal: &mut [u8],
    at: usize,
    kind: u32,
    words: &[u32; 7],
    next: &mut usize,
) -> u32
    ensures { WrittenFrom journal.old journal.new at kind words.now result next.old next.new }
{
    journal_calls::write_from(journal, at, kind, words, next)
}

// The offset behind the last whole record of a journal, read from its start: where to write on. A refused record is no such
// place, and its offset is stored instead.
pub fn nz_journal_end(journal: &[u8], end: &mut usize) -> u32
    ensures { EndInto journal.now result end.new }
{
    journal_calls::end_into(journal, end)
}
