#![tactic(auto)]
// The record table written: a key is set to a value.
ghost use Rattle.std.specs.Prelude.{◌≤◌, length};
ghost use Rattle.rules.specs.Words.{num};
ghost use Rattle.rules.specs.Table.{put, room, store};
ghost use Rattle.storing.specs.Storing.{SameTable, Became};

pub use records::Records;
pub use room::needed;
pub use table::Table;

mod table;

impl Table<'_> {
    // The same table, read.
    pub fn records(&self) -> Records<'_>
        ensures { SameTable self.now result }
    {
        Records {
            bytes: self.bytes,
            used: self.used,
        }
    }

    // Sets a key to a value; zero removes its record.
    pub fn put(&mut self, key: &[u8; rules::WORD_BYTES], value: &[u8; rules::WORD_BYTES])
        requires { length (put (store self.old.bytes.now) (num key.now) (num value.now)) ≤ room self.old.bytes.now }
        ensures { Became self.old self.new (put (store self.old.bytes.now) (num key.now) (num value.now)) }
    {
        let used = self.used;
        let removes = words::is_zero(value);
        // Records are often put in ascending order, so the end is tried first.
        match self.records().find_near(used, key) {
            Ok(i) => {
                if removes {
                    closing::close(self.bytes, i, i + 1, used);
                    self.used -= 1;
                } else {
                    gaps::replace(self.bytes, i, value);
                }
            }
            Err(i) => {
                if !removes {
                    gaps::insert(self.bytes, i, used, key, value);
                    self.used += 1;
                }
            }
        }
    }
}
