#![tactic(auto)]
// A message's type, data and payload, read in the message as it was lent. Its data, `d`, is the message from byte 1 on.
ghost use Rattle.std.specs.Prelude.{◌≡◌, ltb, length};
ghost use Rattle.rules.specs.Source.{minimum_of};
ghost use Rattle.rules.specs.Messages.{named, type_of, data_of, payload_of};
ghost use Rattle.messages.specs.Messages.{named_of, overlong_of};

pub use fields::{address_word, index, key_of, key_word, leading, write_address, write_value};
use rules::Kind;

// The number of Null, which is no type of capability.
const NULL: u8 = 0;

// What a message's type names: three cases in the rules' words, so neither an Option nor a Result.
#[derive(Clone, Copy, Debug, PartialEq, Eq)]
pub enum Named {
    Null,
    Unknown,
    Of(Kind),
}

// Of an empty message 0 is read, as the rules do: it is refused before its type is judged.
pub fn named_by(m: &[u8]) -> Named
    ensures { result ≡ named_of (named (type_of m.now)) }
{
    let number = m.first().copied().unwrap_or(NULL);
    if number == NULL {
        return Named::Null;
    }
    match Kind::try_from(number) {
        Ok(kind) => Named::Of(kind),
        Err(_) => Named::Unknown,
    }
}

// An empty message has no data.
pub fn data_of(m: &[u8]) -> &[u8]
    ensures { result.now ≡ data_of m.now }
{
    m.get(1..).unwrap_or_default()
}

// Whether the data is below the minimum of its type.
pub fn short(kind: Kind, d: &[u8]) -> bool
    ensures { result ≡ ltb (length d.now) (minimum_of kind.0) }
{
    d.len() < kind.minimum_data()
}

// Whether the data goes beyond the format of its type.
#[tactic(auto, unfolding(crate::specs::Messages::overlong_of))]
pub fn overlong(kind: Kind, d: &[u8]) -> bool
    ensures { result ≡ overlong_of kind.0 d.now }
{
    !kind.open_ended() && kind.minimum_data() < d.len()
}

// Call's payload: a part of the message, and no copy.
pub fn payload_of(m: &[u8]) -> &[u8]
    ensures { result.now ≡ payload_of (data_of m.now) }
{
    m.get(rules::MESSAGE_PAYLOAD_AT..).unwrap_or_default()
}
