#![tactic(auto)]
// The rules. Document 01, with what 02 has changed, stands as definitions in specs/. Here stand its numbers, named once, and the
// types that the other crates share; `named_numbers` shows that the numbers here and in specs/ are the same ones.
ghost use Rattle.std.specs.Prelude.{◌≡◌, length};
ghost use Rattle.rules.specs.Answers.{code_bytes};
ghost use Rattle.rules.specs.Source.{is_type, NamesType, HasWords, minimum_of, open_ended_of, rule_numbers};

// The bytes of a procedure's key.
pub const KEY_BYTES: usize = 24;

// The bytes of an address.
pub const ADDRESS_BYTES: usize = 20;

// The bytes of a word: a slot key, a value, the opcode mask.
pub const WORD_BYTES: usize = 32;

// The bytes of a record of the table: a key and a value.
pub const RECORD_SIZE: usize = 64;

// The bytes of the longest table.
pub const GREATEST_TABLE: usize = 65536;

// The first four bytes of every key of kernel storage.
pub const KERNEL_MARK: [u8; 4] = [0xff, 0xff, 0xff, 0xff];

// The bits of the longest prefix.
pub const GREATEST_PREFIX: usize = 192;

// The most capabilities of one type that a procedure holds.
pub const GREATEST_COUNT: usize = 255;

// The bytes of the longest message, its type byte included.
pub const GREATEST_MESSAGE: usize = 65536;

// Where in a message's data Call's payload begins.
pub const PAYLOAD_AT: usize = 64;

// The same in the message, whose data follows the type byte.
pub const MESSAGE_PAYLOAD_AT: usize = 1 + PAYLOAD_AT;

// Where in a message's data Register's capabilities begin.
pub const SERIES_AT: usize = 96;

// The bytes of the longest code that passes.
pub const GREATEST_CODE: usize = 24576;

// The length of a list that takes no more procedures.
pub const GREATEST_LIST: usize = 16777215;

// The type of a capability or a message, by its number: document 01 wants the types as constants of theirs. (The language keeps
// the word `type` for itself.)
#[derive(Clone, Copy, Debug, PartialEq, Eq)]
pub struct Kind(pub u8);

// The numbers of types are below this.
pub const TYPES: usize = 8;

// The most words that a capability has.
pub const GREATEST_WORDS: usize = 2;

// The words of a capability of each type. No type has a number from 0 to 2.
const WORDS: [usize; TYPES] = [0, 0, 0, 1, 1, 1, 0, 2];

// The least data of a message of each type, in bytes.
const MINIMUM_DATA: [usize; TYPES] = [0, 0, 0, PAYLOAD_AT, SERIES_AT, 64, 64, 96];

impl Kind {
    pub const CALL: Kind = Kind(3);

    pub const REGISTER: Kind = Kind(4);

    pub const DELETE: Kind = Kind(5);

    pub const SET_ENTRY: Kind = Kind(6);

    pub const WRITE: Kind = Kind(7);

    // Every type, in the order of their numbers.
    pub const ALL: [Kind; 5] = [
        Kind::CALL,
        Kind::REGISTER,
        Kind::DELETE,
        Kind::SET_ENTRY,
        Kind::WRITE,
    ];

    // Whether the number names a type: a range of numbers, since types have no order.
    pub fn known(self) -> bool
        ensures { result ≡ is_type self.0 }
    {
        Kind::CALL.0 <= self.0 && self.0 <= Kind::WRITE.0
    }

    // How many words a capability of the type has; 0, and no Option, if the number names no type (`HasWords`). Every record of a
    // capability asks, so each type is asked for by name: where the index is known, no array is laid out.
    pub fn words(self) -> usize
        ensures { HasWords self.0 result }
    {
        match self {
            Kind::CALL => WORDS[usize::from(Kind::CALL.0)],
            Kind::REGISTER => WORDS[usize::from(Kind::REGISTER.0)],
            Kind::DELETE => WORDS[usize::from(Kind::DELETE.0)],
            Kind::SET_ENTRY => WORDS[usize::from(Kind::SET_ENTRY.0)],
            Kind::WRITE => WORDS[usize::from(Kind::WRITE.0)],
            _ => 0,
        }
    }

    // How many bytes of data a message of the type has at least; 0, and no Option, if the number names no type (`minimum_of`).
    pub fn minimum_data(self) -> usize
        ensures { result ≡ minimum_of self.0 }
    {
        MINIMUM_DATA.get(usize::from(self.0)).copied().unwrap_or(0)
    }

    // Whether a message of the type may have more data than its minimum; false if the number names no type.
    pub fn open_ended(self) -> bool
        ensures { result ≡ open_ended_of self.0 }
    {
        self == Kind::CALL || self == Kind::REGISTER
    }
}

// A number that names no type.
#[derive(Clone, Copy, Debug, PartialEq, Eq)]
pub struct UnknownKind(pub u8);

impl TryFrom<u8> for Kind {
    type Error = UnknownKind;

    ghost try_from_gives = { NamesType };

    fn try_from(number: u8) -> Result<Kind, UnknownKind> {
        let kind = Kind(number);
        if kind.known() {
            Ok(kind)
        } else {
            Err(UnknownKind(number))
        }
    }
}

// A refusal's code: its one or two bytes, read as one number. Document 01 wants the codes as constants of their type. The
// comments are the rows of document 01's table of codes; that of 66 eb is of document 02.
#[derive(Clone, Copy, Debug, PartialEq, Eq)]
pub struct Refusal(pub u16);

impl Refusal {
    // a key, address, slot key or mask of the wrong number of bytes
    pub const WRONG_BYTES: Refusal = Refusal(0x66ed);
    // table length wrong; or, except at set-up, table not sound
    pub const UNSOUND: Refusal = Refusal(0x66ef);
    // message empty, or data below its minimum
    pub const SHORT: Refusal = Refusal(0x66e0);
    // message above 65,536 bytes
    pub const MESSAGE_TOO_LONG: Refusal = Refusal(0x66ea);
    // type not 0, 3, 4, 5, 6, 7
    pub const UNKNOWN_TYPE: Refusal = Refusal(0xaa);
    // Null, Set Entry, Delete, Write: data beyond their format (of document 02, No. 1)
    pub const OVERLONG: Refusal = Refusal(0x66eb);
    // key word with a non-zero byte in its first 8; Register's address word with one in its first 12
    pub const LEADING_BYTES: Refusal = Refusal(0x66e6);
    // Register or set-up: key or address zero (set-up: kernel address too)
    pub const ZERO: Refusal = Refusal(0x66e4);
    // capability index out of range or not covering; a Write into kernel storage; a requested capability within none held
    pub const NOT_COVERED: Refusal = Refusal(0x33);
    // code does not pass
    pub const CODE_FAILS: Refusal = Refusal(0x66e9);
    // capability series malformed: wrong size, type or prefix, non-zero leading bytes, or a cut end
    pub const MALFORMED_SERIES: Refusal = Refusal(0x66e5);
    // more than 255 requested of one type
    pub const TOO_MANY: Refusal = Refusal(0x6677);
    // key already listed
    pub const ALREADY_LISTED: Refusal = Refusal(0x66e1);
    // Delete of the entry key
    pub const IS_ENTRY: Refusal = Refusal(0x66e2);
    // Delete of the current key
    pub const IS_CURRENT: Refusal = Refusal(0x66e3);
    // Call, Delete, Set Entry, Turn: key not listed
    pub const NOT_LISTED: Refusal = Refusal(0x6633);
    // list length is 16,777,215
    pub const LIST_FULL: Refusal = Refusal(0x66e8);
    // the table afterwards would need more records than it has room for
    pub const NO_ROOM: Refusal = Refusal(0x66e7);

    // How many bytes the code has: one or two.
    pub fn code_len(self) -> u8
        ensures { result ≡ length (code_bytes self.0) }
    {
        if self.0 < 256 { 1 } else { 2 }
    }
}

// What a call that succeeds reports.
#[derive(Clone, Copy, Debug, PartialEq, Eq)]
pub enum Success {
    // nothing else
    Done,
    // a Call that is permitted: the callee's address; the payload is in the caller's own message
    Called([u8; ADDRESS_BYTES]),
    // a Register that is done: its tests
    Registered(u64),
    // Look: the slot's value
    Looked([u8; WORD_BYTES]),
}

// What a call answers.
pub type Reply = Result<Success, Refusal>;

// The numbers that are named here, in the order in which specs/ names them.
#[derive(Clone, Copy, Debug, PartialEq, Eq)]
pub struct Numbers {
    pub sizes: [usize; 13],
    pub mark: [u8; 4],
    pub types: [Kind; 5],
    pub codes: [Refusal; 18],
}

const SIZES: [usize; 13] = [
    KEY_BYTES,
    ADDRESS_BYTES,
    WORD_BYTES,
    RECORD_SIZE,
    GREATEST_TABLE,
    GREATEST_WORDS,
    GREATEST_PREFIX,
    GREATEST_COUNT,
    GREATEST_MESSAGE,
    PAYLOAD_AT,
    SERIES_AT,
    GREATEST_CODE,
    GREATEST_LIST,
];

const CODES: [Refusal; 18] = [
    Refusal::WRONG_BYTES,
    Refusal::UNSOUND,
    Refusal::SHORT,
    Refusal::MESSAGE_TOO_LONG,
    Refusal::UNKNOWN_TYPE,
    Refusal::OVERLONG,
    Refusal::LEADING_BYTES,
    Refusal::ZERO,
    Refusal::NOT_COVERED,
    Refusal::CODE_FAILS,
    Refusal::MALFORMED_SERIES,
    Refusal::TOO_MANY,
    Refusal::ALREADY_LISTED,
    Refusal::IS_ENTRY,
    Refusal::IS_CURRENT,
    Refusal::NOT_LISTED,
    Refusal::LIST_FULL,
    Refusal::NO_ROOM,
];

// They are the numbers of specs/.
pub fn named_numbers() -> Numbers
    ensures { result ≡ rule_numbers }
{
    Numbers {
        sizes: SIZES,
        mark: KERNEL_MARK,
        types: Kind::ALL,
        codes: CODES,
    }
}
