ghost use Rattle.std.specs.Prelude.{◌≡◌, true, length};
ghost use Rattle.rules.specs.Table.{store, record_form};

// A table of the record form that is written, and how many of its records are occupied.
#[derive(Drop)]
pub struct Table<'a> {
    pub bytes: &'a mut [u8],
    pub used: usize,
    pub ghost form: { record_form bytes.now ≡ true },
    pub ghost count: { used ≡ length (store bytes.now) },
}
