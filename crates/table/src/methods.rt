ghost use Rattle.std.specs.Prelude.{◌≡◌, ◌≤◌, not, ◌++◌, length, take, drop, nat_lt};
ghost use Rattle.table.specs.Tables.{Appended, Kept, records, room};
ghost use Rattle.table.specs.declared.Table.{Table};
ghost use Rattle.std.specs.List.{slice_get};

use super::{Full, Table};

impl<'a, T: Copy> Table<'a, T> {
    // An empty table over the slots, for at most `limit` records.
    pub fn new(slots: &'a mut [T], limit: usize) -> Table<'a, T>
        ensures empty { result.len ≡ 0 }
        ensures limit { result.limit ≡ limit }
        ensures same { result.slots.now ≡ slots.old }
        ensures lent { result.slots.ghost_name ≡ slots.entry.ghost_name }
    {
        Table {
            slots,
            limit,
            len: 0,
        }
    }

    // How many records it holds. The slots hold these, and behind them what they held when they were lent.
    pub fn len(&self) -> usize
        ensures count { result ≡ length (records self.now) }
        ensures slots { (old : Table T) → Kept old self.now → self.now.slots.now ≡ records self.now ++ drop result old.slots.now }
    {
        self.len
    }

    // The record at `i`, if there is one.
    pub fn get(&self, i: usize) -> Option<T>
        ensures { result ≡ slice_get (records self.now) i }
    {
        self.as_slice().get(i).copied()
    }

    // The records, in the order in which they came.
    pub fn as_slice(&self) -> &[T]
        ensures { result.now ≡ records self.now }
    {
        &self.slots[..self.len]
    }

    // Whether no record more finds a place.
    pub fn is_full(&self) -> bool
        ensures { result ≡ not (nat_lt (length (records self.now)) (room self.now)) }
    {
        self.len >= self.limit || self.len >= self.slots.len()
    }

    // Appends a record and answers its number, or says that the table is full.
    pub fn push(&mut self, record: T) -> Result<usize, Full>
        ensures { Appended self.old «record» result self.new }
    {
        if self.is_full() {
            return Err(Full);
        }
        let at = self.len;
        self.slots[at] = record;
        self.len = at + 1;
        Ok(at)
    }
}
