#![tactic(auto)]
// Text written into a lent buffer: a character, bytes in hex. std's `Write` of a slice does not promise which bytes it leaves
// there, and `Wrote` names each.
ghost use Rattle.std.specs.Prelude.{◌*◌, ◌≤◌, ◌<◌, ◌≡◌, [], ◌∷◌, length, take};
ghost use Rattle.rules.specs.Program.{hex_digit, hex};
ghost use Rattle.writing.specs.Wrote.{room, Wrote};

mod text;

pub use text::Text;

impl<'a> Text<'a> {
    // How many bytes more can be written.
    pub fn room(&self) -> usize
        ensures { result ≡ room self.now }
    {
        self.bytes.len() - self.end
    }

    // What is written.
    pub fn written(&self) -> &[u8]
        ensures { result.now ≡ take self.now.end self.now.bytes.now }
    {
        &self.bytes[..self.end]
    }

    // One character.
    pub fn put(&mut self, character: u8)
        requires { 1 ≤ room self.old }
        ensures { Wrote self.old (character ∷ []) self.new }
    {
        self.bytes[self.end] = character;
        self.end += 1;
    }

    // Bytes in hex.
    pub fn put_hex(&mut self, bytes: &[u8])
        requires { 2 * length bytes.now ≤ room self.old }
        ensures { Wrote self.old (hex bytes.now) self.new }
    {
        let end = self.end + 2 * bytes.len();
        write_hex(&mut self.bytes[self.end..end], bytes);
        self.end = end;
    }
}

// Bytes in hex, over all of a slice: behind a `Text` a loop would keep its end in memory, a byte at a time.
fn write_hex(out: &mut [u8], bytes: &[u8])
    requires { length out.old ≡ 2 * length bytes.now }
    ensures { out.new ≡ hex bytes.now }
{
    for (i, byte) in bytes.iter().enumerate() {
        let at = 2 * i;
        out[at] = digit(byte / 16);
        out[at + 1] = digit(byte % 16);
    }
}

// The digit of a value below 16. By no table of the digits: with one the loop writes a byte at a time, and takes four times
// as long.
#[tactic(auto, unfolding(rules::specs::Program::hex_digit))]
fn digit(value: u8) -> u8
    requires { value < 16 }
    ensures { result ≡ hex_digit value }
{
    if value < 10 {
        b'0' + value
    } else {
        b'a' - 10 + value
    }
}
