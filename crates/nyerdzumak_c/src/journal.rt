// Exports the calls for the correction journal, each one call of the function of the same name of nyerdzumak, with its
// contract: nz_journal_read, nz_journal_write, nz_journal_end.
ghost use Rattle.journal_calls.specs.Calls.{ReadInto, WrittenFrom, EndInto};

// What stands at an offset of a journal: a record, with its kind and its words, the end, or a record that is cut off. `next` is
// where to go on, which beside a refusal is the offset of the record that is refused.
#[unsafe(no_mangle)]
pub extern "C" fn nz_journal_read(
    journal: &[u8],
    at: usize,
    what: &mut u32,
    kind: &mut u32,
    words: &mut [u32; 7],
    next: &mut usize,
) -> u32
    ensures { ReadInto journal.now at result what.old what.new kind.old kind.new
        words.old words.new next.new }
{
    nyerdzumak::journal::nz_journal_read(journal, at, what, kind, words, next)
}

// Writes the record of a kind and its words at an offset of a journal, where there is such a kind and it fits.
#[unsafe(no_mangle)]
pub extern "C" fn nz_journal_write(
    journal: &mut [u8],
    at: usize,
    kind: u32,
    words: &[u32; 7],
    next: &mut usize,
) -> u32
    ensures { WrittenFrom journal.old journal.new at kind words.now result next.old next.new }
{
    nyerdzumak::journal::nz_journal_write(journal, at, kind, words, next)
}

// The offset behind the last whole record of a journal, read from its start: where to write on. A refused record is no such
// place, and its offset is stored instead.
#[unsafe(no_mangle)]
pub extern "C" fn nz_journal_end(journal: &[u8], end: &mut usize) -> u32
    ensures { EndInto journal.now result end.new }
{
    nyerdzumak::journal::nz_journal_end(journal, end)
}
