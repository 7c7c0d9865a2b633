#![tactic(auto)]
// A key of the table judged: whether it is one of kernel storage, and what its parts are.
ghost use Rattle.std.specs.Prelude.{◌≡◌};
ghost use Rattle.rules.specs.Words.{num};
ghost use Rattle.rules.specs.KernelStorage.{in_kernel_storage, end_second, end_third};
ghost use Rattle.keys.specs.Keys.{MiddleOf, end_first};

// Byte 4 is the region, bytes 5 to 28 the middle, bytes 29 to 31 the end.
pub const REGION_AT: usize = 4;

pub const MIDDLE_AT: usize = 5;

pub const END_AT: usize = 29;

// Whether a key is one of kernel storage: its first four bytes decide.
pub fn in_kernel_storage(key: &[u8; rules::WORD_BYTES]) -> bool
    ensures { result ≡ in_kernel_storage (num key.now) }
{
    key.starts_with(&rules::KERNEL_MARK)
}

// The middle, as a part of the key.
pub fn middle_of(key: &[u8; rules::WORD_BYTES]) -> &[u8; rules::KEY_BYTES]
    ensures { MiddleOf (num key.now) result.now }
{
    key[MIDDLE_AT..END_AT].as_array().unwrap()
}

// The three bytes of the end. Each has the rules' name for it, and is one byte read: a function behind the three would be no
// plainer.
pub fn end_first(key: &[u8; rules::WORD_BYTES]) -> u8
    ensures { result ≡ end_first (num key.now) }
{
    key[END_AT]
}

pub fn end_second(key: &[u8; rules::WORD_BYTES]) -> u8
    ensures { result ≡ end_second (num key.now) }
{
    key[END_AT + 1]
}

pub fn end_third(key: &[u8; rules::WORD_BYTES]) -> u8
    ensures { result ≡ end_third (num key.now) }
{
    key[END_AT + 2]
}
