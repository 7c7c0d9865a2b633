#![tactic(auto)]
// Words in which a number or bytes stand right: the unused leading bytes are zero.
ghost use Rattle.std.specs.Prelude.{◌≡◌, ◌≤◌, length};
ghost use Rattle.rules.specs.Words.{word_bytes, num};
ghost use Rattle.words.specs.Words.{Holds};

// A number as a word.
pub fn number_word(n: usize) -> [u8; rules::WORD_BYTES]
    ensures { Holds word_bytes result n }
{
    let mut word = [0u8; rules::WORD_BYTES];
    layout::write_number(&mut word, n);
    word
}

// Bytes as a word.
pub fn right_word(bytes: &[u8]) -> [u8; rules::WORD_BYTES]
    requires { length bytes.now ≤ word_bytes }
    ensures { Holds word_bytes result (num bytes.now) }
{
    let mut word = [0u8; rules::WORD_BYTES];
    let at = rules::WORD_BYTES - bytes.len();
    word[at..].copy_from_slice(bytes);
    word
}
