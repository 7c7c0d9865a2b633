#![tactic(auto)]
// The program's first table.
ghost use Rattle.std.specs.Prelude.{◌≤◌, ◌≡◌, length};
ghost use Rattle.rules.specs.Table.{greatest_table};
ghost use Rattle.rules.specs.Program.{program_table};

// "A program sets up a full-size table (key, address, kernel address all zero but last bytes 01, 11, 22)": whatever the table
// held. The three arrays by hand: a function with their length as a const parameter is longer than what it replaces.
pub fn set_up(t: &mut [u8])
    requires { length t.old ≡ greatest_table }
    ensures { t.new ≡ program_table }
{
    let mut key = [0; rules::KEY_BYTES];
    key[rules::KEY_BYTES - 1] = 0x01;
    let mut address = [0; rules::ADDRESS_BYTES];
    address[rules::ADDRESS_BYTES - 1] = 0x11;
    let mut kernel_address = [0; rules::ADDRESS_BYTES];
    kernel_address[rules::ADDRESS_BYTES - 1] = 0x22;
    // It succeeds, as the promise says.
    let _ = kernel::set_up(t, &key, &address, &kernel_address);
}
