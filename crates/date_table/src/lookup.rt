// A table that is lent: its test, and the dates of times by one that passed.
ghost use Rattle.std.specs.Prelude.{◌≡◌, ◌<◌, ◌≤◌, Err, IsOk, map, length, position, MatchResult};
ghost use Rattle.date_table.specs.All.{first_outside, all_answer, all_times};
ghost use Rattle.date_table.specs.Search.{Bracket, LastNotAbove};
ghost use Rattle.date_table.specs.Table.{check_of, part_way, outside, date_in, date_of, first_x, last_x};

use super::{NotDated, Refusal, whole};

// Tests a table, in one pass; by places, an entry being two of the numbers that are lent.
#[tactic(auto, using(crate::proofs::Pass::steps), unfolding(crate::specs::Table::check_of))]
pub fn test(table: &[u32]) -> Result<(), Refusal>
    ensures { result ≡ check_of table.now }
{
    let n = table.len();
    if n == 0 {
        return Err(Refusal::BufferTooShort);
    }
    if n % 2 != 0 {
        return Err(Refusal::OddLength);
    }
    let mut rises = true;
    let mut x: u32 = 0;
    let mut y: u32 = 0;
    for i in 0..n / 2 {
        let next_x = table[2 * i];
        let next_y = table[2 * i + 1];
        if (next_x > whole::MAX_ENTRY) | (next_y > whole::MAX_ENTRY) {
            return Err(Refusal::EntryOutOfRange);
        }
        rises = rises & ((x <= next_x) & (y <= next_y));
        x = next_x;
        y = next_y;
    }
    if !rises {
        return Err(Refusal::TableFalls);
    }
    Ok(())
}

// The place of the last entry whose x is not above r, in a table whose first x is not. By hand: `partition_point` searches
// entries, and its promise asks that all of them are in order, where `Bracket` speaks of the two at hand.
fn last_not_above(table: &[u32], r: u32) -> usize
    requires { Bracket table.now r 0 (length table.now) }
    ensures { LastNotAbove table.now r result }
{
    let mut low = 0;
    let mut high = table.len();
    while high - low > 2 {
        let middle = low + (high - low) / 4 * 2;
        if table[middle] <= r {
            low = middle;
        } else {
            high = middle;
        }
    }
    low
}

// The date of r between an entry and the next.
fn part_way(r: u32, x: u32, y: u32, next_x: u32, next_y: u32) -> u32
    requires not_before { x ≤ r }
    requires not_behind { r < next_x }
    requires rising { y ≤ next_y }
    ensures { result ≡ part_way r x y next_x next_y }
{
    let part = ((r - x) as u64) * ((next_y - y) as u64) / ((next_x - x) as u64);
    y + (part as u32)
}

// A table that passed the test.
#[derive(Clone, Copy)]
pub struct Table<'a> {
    entries: &'a [u32],
    ghost tested: { IsOk (check_of entries.now) },
}

impl<'a> Table<'a> {
    // Refused as the test finds.
    pub fn tested(entries: &'a [u32]) -> Result<Table<'a>, Refusal>
        ensures { MatchResult result (λ t. t.entries.now ≡ entries.now) (λ why. check_of entries.now ≡ Err why) }
    {
        test(entries)?;
        Ok(Table { entries })
    }

    // The date of r, from the first x to the last.
    fn date_in(&self, r: u32) -> u32
        requires not_before { first_x self.now.entries.now ≤ r }
        requires not_behind { r ≤ last_x self.now.entries.now }
        ensures { result ≡ date_in self.now.entries.now r }
    {
        let table = self.entries;
        let n = table.len();
        let at = last_not_above(table, r);
        if n - at < 4 {
            return table[at + 1];
        }
        part_way(r, table[at], table[at + 1], table[at + 2], table[at + 3])
    }

    // Whether r is before the first x or after the last.
    #[tactic(auto, using(crate::proofs::Found::two_numbers, crate::proofs::Found::outside_by_place))]
    fn is_outside(&self, r: u32) -> bool
        ensures { result ≡ outside self.now.entries.now r }
    {
        let table = self.entries;
        (r < table[0]) | (table[table.len() - 2] < r)
    }

    // The date of r, unless it is outside.
    #[tactic(auto, using(crate::proofs::Found::is_outside, crate::proofs::Found::is_date, crate::proofs::Many::inside_low, crate::proofs::Many::inside_high))]
    pub fn date(&self, r: u32) -> Result<u32, Refusal>
        ensures { result ≡ date_of self.now.entries.now r }
    {
        if self.is_outside(r) {
            return Err(Refusal::TimeOutside);
        }
        Ok(self.date_in(r))
    }

    // The place of the first time that is outside.
    fn first_outside(&self, times: &[u32]) -> Option<usize>
        ensures { result ≡ position (outside self.now.entries.now) times.now }
    {
        times.iter().position(|r| self.is_outside(*r))
    }

    // Stores the date of each time over it; none is outside.
    fn date_each(&self, times: &mut [u32])
        requires { length times.old ≤ first_outside self.now.entries.now times.old }
        ensures { times.new ≡ map (date_in self.now.entries.now) times.old }
    {
        for r in times.iter_mut() {
            *r = self.date_in(*r);
        }
    }

    // Stores the date of each time over it, unless one is outside.
    pub fn date_all(&self, times: &mut [u32]) -> Result<(), NotDated>
        ensures value { result ≡ all_answer self.now.entries.now times.old }
        ensures times { times.new ≡ all_times self.now.entries.now times.old }
    {
        if let Some(i) = self.first_outside(times) {
            return Err(NotDated::OutsideAt(i));
        }
        self.date_each(times);
        Ok(())
    }
}
