#![tactic(auto)]
// A word read in bytes.
ghost use Rattle.std.specs.Prelude.{◌+◌, ◌≤◌, length};
ghost use Rattle.rules.specs.Words.{word_bytes};
ghost use Rattle.moves.specs.Moves.{WordPart};

// The word that begins at an offset.
pub fn word_at(bytes: &[u8], at: usize) -> &[u8; rules::WORD_BYTES]
    requires { at + word_bytes ≤ length bytes.now }
    ensures { WordPart bytes.now at result.now }
{
    bytes[at..at + rules::WORD_BYTES].as_array().unwrap()
}
