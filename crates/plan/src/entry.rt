// A table's entries, by their indexes.

ghost use Rattle.std.specs.Prelude.{◌≡◌, ◌<◌};
ghost use Rattle.plan.specs.Limit.{most_points};

use crate::POINTS;

// An entry of a table: its index is one that a table has.
#[derive(Clone, Copy, Debug, PartialEq, Eq, Hash)]
pub struct Entry {
    pub at: u8,
    ghost in_table: { at < most_points },
}

impl Entry {
    ghost use Rattle.plan.specs.Entries.{entry_at};

    // The entry at the index, or the last.
    pub fn at_most(index: usize) -> Entry
        ensures { result ≡ entry_at index }
    {
        if index < POINTS {
            Entry { at: index as u8 }
        } else {
            Entry {
                at: (POINTS - 1) as u8,
            }
        }
    }
}

impl From<Entry> for usize {
    ghost from_gives = { λ entry index. index ≡ entry.at };

    fn from(entry: Entry) -> usize {
        usize::from(entry.at)
    }
}
