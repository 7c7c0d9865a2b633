#![tactic(auto)]
// The first table: one procedure, current and entry, with the capabilities that set-up gives it.
ghost use Rattle.std.specs.Prelude.{◌≡◌, length};
ghost use Rattle.rules.specs.Words.{num};
ghost use Rattle.rules.specs.Table.{bytes};
ghost use Rattle.rules.specs.Calls.{fixed_records, fresh};
ghost use Rattle.storing.specs.Storing.{Became};
ghost use Rattle.founding.specs.Founding.{Empty, SetUpLent, first_series};

use storing::Table;

// The data of a Register that requests the first procedure's capabilities: CapSize, CapType and words of each.
const FIRST_BYTES: usize = rules::SERIES_AT + 15 * rules::WORD_BYTES;

// How many records these capabilities need: the count of each of the five types, and the second word of Write, the only one that
// is not zero.
const FIRST_RECORDS: usize = 6;

// Call(0,0), Register(0,0), Delete(0,0), Set Entry and Write(0, 2^256−1).
fn first_series() -> [u8; FIRST_BYTES]
    ensures { result ≡ first_series }
{
    let mut d = [0; FIRST_BYTES];
    let mut at = rules::SERIES_AT;
    for kind in rules::Kind::ALL {
        let words = kind.words();
        // A cast: a type has at most two words.
        d[at + rules::WORD_BYTES - 1] = 1 + words as u8;
        d[at + requests::HEAD - 1] = kind.0;
        at += requests::HEAD + rules::WORD_BYTES * words;
    }
    d[FIRST_BYTES - rules::WORD_BYTES..].fill(0xff);
    d
}

// The kernel address, the current and the entry key, into an empty table.
fn put_fixed(
    table: &mut Table,
    key: &[u8; rules::KEY_BYTES],
    kernel_address: &[u8; rules::ADDRESS_BYTES],
)
    requires { Empty table.old.bytes.now }
    ensures { Became table.old table.new (fixed_records (num key.now) (num kernel_address.now)) }
{
    let word = right::right_word(key);
    table.put(
        &slots::kernel_address_slot(),
        &right::right_word(kernel_address),
    );
    table.put(&slots::current_slot(), &word);
    table.put(&slots::entry_slot(), &word);
}

// Overwrites the table, whatever it held, with the first one.
pub fn found(
    t: &mut [u8],
    key: &[u8; rules::KEY_BYTES],
    address: &[u8; rules::ADDRESS_BYTES],
    kernel_address: &[u8; rules::ADDRESS_BYTES],
)
    requires { SetUpLent t.old (num key.now) (num address.now) (num kernel_address.now) }
    ensures { t.new ≡ bytes (length t.old) (fresh (num key.now) (num address.now) (num kernel_address.now)) }
{
    t.fill(0);
    let mut table = Table { bytes: t, used: 0 };
    put_fixed(&mut table, key, kernel_address);
    let word = right::right_word(address);
    appending::append(&mut table, 0, key, &word, &first_series(), FIRST_RECORDS);
}
