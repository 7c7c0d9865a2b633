#![tactic(auto)]
// What a capability permits, by its type: the keys or addresses that it covers, and the capabilities that lie within it.
ghost use Rattle.std.specs.Prelude.{◌≡◌};
ghost use Rattle.rules.specs.Words.{num};
ghost use Rattle.rules.specs.Capabilities.{prefix_in_range};
ghost use Rattle.rules.specs.Capabilities.{covers, within};
ghost use Rattle.rules.specs.Source.{OfType};
ghost use Rattle.rights.specs.Rights.{capability_in, PrefixNeeds, CoversNeeds, WithinNeeds};

use rules::Kind;

// Whether the prefix of a capability, whose words come first in bytes, is in range. Set Entry and Write have none.
pub fn prefix_in_range(kind: Kind, capability: &[u8]) -> bool
    requires { PrefixNeeds kind.0 capability.now }
    ensures { OfType kind.0 (λ k. result ≡ prefix_in_range k (capability_in k capability.now)) }
{
    match kind {
        Kind::CALL | Kind::REGISTER | Kind::DELETE => {
            prefixes::prefix_of(moves::word_at(capability, 0)) <= rules::GREATEST_PREFIX
        }
        _ => true,
    }
}

// Whether a capability, whose words come first in bytes, covers what a word names: a key, or for Write an address.
pub fn covers(kind: Kind, capability: &[u8], x: &[u8; rules::WORD_BYTES]) -> bool
    requires { CoversNeeds kind.0 capability.now x.now }
    ensures { OfType kind.0 (λ k. result ≡ covers k (capability_in k capability.now) (num x.now)) }
{
    match kind {
        Kind::SET_ENTRY => true,
        Kind::WRITE => {
            let first = moves::word_at(capability, 0);
            ranges::covers_address(first, moves::word_at(capability, rules::WORD_BYTES), x)
        }
        _ => {
            let base = moves::word_at(capability, 0);
            prefixes::covers_key(base, prefixes::key_part(x))
        }
    }
}

// Whether b lies within a, both of one type, with their words first in bytes.
pub fn within(kind: Kind, b: &[u8], a: &[u8]) -> bool
    requires { WithinNeeds kind.0 b.now a.now }
    ensures { OfType kind.0 (λ k. result ≡ within k (capability_in k b.now) (capability_in k a.now)) }
{
    match kind {
        Kind::SET_ENTRY => true,
        Kind::WRITE => {
            let b_first = moves::word_at(b, 0);
            let b_second = moves::word_at(b, rules::WORD_BYTES);
            let a_first = moves::word_at(a, 0);
            let a_second = moves::word_at(a, rules::WORD_BYTES);
            ranges::within_range(b_first, b_second, a_first, a_second)
        }
        _ => {
            let b_word = moves::word_at(b, 0);
            let a_word = moves::word_at(a, 0);
            prefixes::within_prefix(b_word, a_word)
        }
    }
}
