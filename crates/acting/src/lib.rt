#![tactic(auto)]
// What the current procedure may do, and whether a key is listed: what the rows of the system calls ask of a sound table.
ghost use Rattle.std.specs.Prelude.{◌≡◌, true, not, ◌≤◌, length};
ghost use Rattle.rules.specs.Words.{word_bytes, num};
ghost use Rattle.rules.specs.Table.{store};
ghost use Rattle.rules.specs.Procedures.{current, listed};
ghost use Rattle.rules.specs.Sound.{sound_table};
ghost use Rattle.rules.specs.Calls.{index_out_of_range};
ghost use Rattle.rules.specs.Source.{OfType};
ghost use Rattle.words.specs.Words.{Holds};
ghost use Rattle.acting.specs.Acting.{ActsOn, Permits};

pub use held::Records;

// The word that holds the current key.
pub fn current(table: Records) -> [u8; rules::WORD_BYTES]
    requires { sound_table table.bytes.now ≡ true }
    ensures { Holds word_bytes result (current (store table.entry.bytes.now)) }
{
    let slot = slots::current_slot();
    listing::value_at(table, &slot)
}

// Whether a key is listed.
pub fn is_listed(table: Records, key: &[u8; rules::KEY_BYTES]) -> bool
    requires { sound_table table.bytes.now ≡ true }
    ensures { result ≡ listed (store table.entry.bytes.now) (num key.now) }
{
    let places = soundness::list_length(table);
    listing::listed(table, places, key)
}

// Whether the index that data begins with is below the current procedure's count of a type.
pub fn index_in_range(table: Records, kind: rules::Kind, d: &[u8]) -> bool
    requires sound_table { sound_table table.bytes.now ≡ true }
    requires word_bytes_in_bounds { word_bytes ≤ length d.now }
    ensures { OfType kind.0 (λ k. result ≡ not (index_out_of_range (store table.entry.bytes.now) d.now k)) }
{
    let holder = current(table);
    let count = held::count_of(table, listing::key_part(&holder), kind);
    words::small(messages::index(d)) < count
}

// Whether the capability that the index names is held and covers a key, or for Write an address.
pub fn permits(table: Records, kind: rules::Kind, d: &[u8], x: &[u8; rules::WORD_BYTES]) -> bool
    requires sound_table { sound_table table.bytes.now ≡ true }
    requires acts_on { ActsOn kind.0 d.now x.now }
    ensures { Permits table.entry.bytes.now d.now kind.0 (num x.now) result }
{
    if index_in_range(table, kind, d) {
        let holder = current(table);
        // A cast below: the index is less than the count, and so fits a byte.
        let i = words::small(messages::index(d)) + 1;
        let chosen = held::capability(table, listing::key_part(&holder), kind, i as u8);
        rights::covers(kind, &chosen, x)
    } else {
        false
    }
}
