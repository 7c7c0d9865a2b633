// A lent buffer and how far it is written: what stands before `end` is the text so far.
ghost use Rattle.std.specs.Prelude.{◌≡◌, ◌≤◌, length};

#[derive(Drop)]
pub struct Text<'a> {
    pub(crate) bytes: &'a mut [u8],
    pub(crate) end: usize,
    ghost within: { end ≤ length bytes.now },
}

impl<'a> Text<'a> {
    // Nothing is written yet.
    pub fn new(bytes: &'a mut [u8]) -> Text<'a>
        ensures same_reference { result.bytes.ghost_name ≡ bytes.entry.ghost_name }
        ensures value { (result.bytes.now ≡ bytes.old) × (result.end ≡ 0) }
    {
        Text { bytes, end: 0 }
    }
}
