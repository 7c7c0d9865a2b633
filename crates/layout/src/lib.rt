#![tactic(auto)]
// The bytes of a key of kernel storage, and those of a number.
ghost use Rattle.std.specs.Prelude.{◌≡◌, length};
ghost use Rattle.rules.specs.Words.{word_bytes, num, bytes_of};
ghost use Rattle.rules.specs.KernelStorage.{slot, ending};
ghost use Rattle.words.specs.Words.{Holds};

// The key of a slot: the mark of kernel storage, the region, the middle, and the end's three bytes.
pub fn slot(
    region: u8,
    middle: &[u8; rules::KEY_BYTES],
    first: u8,
    second: u8,
    third: u8,
) -> [u8; rules::WORD_BYTES]
    ensures { Holds word_bytes result (slot region (num middle.now) (ending first second third)) }
{
    let mut key = [0u8; rules::WORD_BYTES];
    key[..keys::REGION_AT].copy_from_slice(&rules::KERNEL_MARK);
    key[keys::REGION_AT] = region;
    key[keys::END_AT..].copy_from_slice(&[first, second, third]);
    key[keys::MIDDLE_AT..keys::END_AT].copy_from_slice(middle);
    key
}

// A number into bytes, right: the unused leading bytes become zero, and digits that do not fit are left out.
pub fn write_number(to: &mut [u8], n: usize)
    ensures { to.new ≡ bytes_of (length to.old) n }
{
    let mut left = n;
    // Of any length, which `to_be_bytes` is not; by index: a proof knows nothing of what `iter_mut().rev()` writes. (A cast: a
    // remainder by 256 is a byte.)
    for i in (0..to.len()).rev() {
        to[i] = (left % 256) as u8;
        left /= 256;
    }
}
