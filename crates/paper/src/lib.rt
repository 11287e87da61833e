// The layout of records, calls and replies in document 01, and its numbers, each said once for code. Nothing here need be believed:
// the promises cite the definitions in specs/, so a wrong number is refused by the prover.

#![tactic(auto)]

ghost use Rattle.std.specs.Prelude.{◌≡◌};
ghost use Rattle.paper.specs.Refusal.{number};

// ---- the store

pub const RECORD_BYTES: usize = 256;

pub const FEWEST_RECORDS: usize = 2;

pub const MOST_RECORDS: usize = 256;

// Handle = session number × 65,536 + object number.
pub const HANDLE_STEP: u32 = 65536;

pub const MOST_SESSIONS: u32 = 65535;

pub const MOST_OBJECTS: usize = 999;

// Kinds of records. They stay bytes: a lent record may have any, and what store_records promises of a kind holds for every byte (`is_kind`,
// `is_that`). Code names them in a `match`.
pub const FREE: u8 = 0;

pub const SESSION: u8 = 1;

pub const PUK: u8 = 2;

pub const POLICY: u8 = 3;

pub const KEY: u8 = 4;

pub const PENDING: u8 = 5;

pub const COUNTER: u8 = 6;

// Widths of fields; of an ID, a PIN or PUK and a public key the longest, without the length byte before it.
pub const HANDLE_BYTES: usize = 4;

pub const ID_BYTES: u8 = 32;

pub const PIN_BYTES: u8 = 16;

pub const PUBLIC_KEY_BYTES: u8 = 96;

pub const SESSION_KEY_BYTES: usize = 32;

pub const DIGEST_BYTES: usize = 32;

pub const TIMES_BYTES: usize = 8;

// The same with the length byte: as many bytes of two records are compared.
pub const ID_WIDTH: usize = 33;

pub const PIN_WIDTH: usize = 17;

// ---- where the fields of a record stand

// Every kind.
pub const KIND: usize = 0;

pub const OWN: usize = 4;

pub const HOME: usize = 8;

pub const PARENT: usize = 12;

pub const ID: usize = 16;

// 1 session. HOME is its own handle, ID its ServerSessionID.
pub const STATE: usize = 1;

pub const NEXT_OBJECT: usize = 2;

pub const CLIENT_ID: usize = 49;

pub const SESSION_KEY: usize = 82;

pub const MAC_COUNTER: usize = 114;

pub const KEY_LIMIT: usize = 116;

pub const PRIVACY: usize = 118;

pub const KEY_MANAGEMENT: usize = 119;

pub const CLIENT_TIME: usize = 120;

pub const LIFE_TIME: usize = 124;

pub const SESSION_END: usize = 128;

pub const OPEN: u8 = 1;

pub const CLOSED: u8 = 2;

// 2 PUK and 3 PIN policy.
pub const FORMAT: usize = 1;

pub const RETRY_LIMIT: usize = 2;

pub const PUK_ERRORS: usize = 3;

pub const GROUPING: usize = 3;

pub const VALUE: usize = 49;

pub const VALUE_END: usize = 66;

pub const USER_DEFINED: usize = 49;

pub const USER_MODIFIABLE: usize = 50;

pub const PATTERNS: usize = 51;

pub const MIN_LENGTH: usize = 52;

pub const MAX_LENGTH: usize = 53;

pub const POLICY_END: usize = 54;

// 4 key. VALUE is its PIN.
pub const PATH_SET: usize = 1;

pub const KEY_ERRORS: usize = 2;

pub const DELETE_PROTECTION: usize = 3;

pub const PUBLIC_KEY: usize = 82;

pub const DIGEST: usize = 179;

pub const PIN_CACHING: usize = 211;

pub const EXPORT_PROTECTION: usize = 212;

pub const APP_USAGE: usize = 213;

pub const KEY_END: usize = 214;

// 5 pending. PARENT is its target.
pub const OPERATION: usize = 1;

pub const STALE: usize = 2;

pub const PENDING_END: usize = 16;

pub const DELETES: u8 = 50;

pub const UNLOCKS: u8 = 51;

// 6 counter.
pub const NEXT_SESSION: usize = 4;

pub const COUNTER_END: usize = 8;

// Ranges of fields.
pub const LAST_FORMAT: u8 = 3;

pub const LAST_GROUPING: u8 = 1;

pub const SHARED: u8 = 1;

pub const LAST_PATTERNS: u8 = 7;

pub const LAST_PROTECTION: u8 = 3;

pub const BY_PIN: u8 = 1;

pub const BY_PUK: u8 = 2;

pub const NEVER: u8 = 3;

// ---- where the fields of a call stand, and how long they are

pub const METHOD: usize = 0;
// The session handle of a session call, the key handle of a user call.
pub const SUBJECT: usize = 1;
// What stands behind it: ID, Nonce, what is typed, or the key that 12, 50 and 51 name.
pub const BEHIND_SUBJECT: usize = 5;

pub const ALGORITHM: usize = 1;

pub const CERTIFICATE_COUNT: usize = 9;

pub const CERTIFICATES: usize = 10;

pub const AUTHORIZATION: usize = 9;
// In the chip bytes: of 2 the ClientSessionID behind the SessionKey, of 10 the public key.
pub const CHIP_CLIENT_ID: usize = 32;

pub const CHIP_PUBLIC_KEY: usize = 0;

pub const MAC_BYTES: usize = 32;

pub const SHORTEST_CALL: usize = 5;

pub const LONGEST_CALL: usize = 16384;

pub const LONGEST_SERVER_KEY: usize = 512;

pub const LONGEST_MANAGEMENT_KEY: usize = 512;

pub const LONGEST_URI: usize = 1000;

pub const LONGEST_NONCE: usize = 64;

pub const LONGEST_ENCRYPTED: usize = 64;

pub const LONGEST_PIN_VALUE: usize = 64;

pub const LONGEST_SEED: usize = 64;

pub const LONGEST_NAME: usize = 100;

pub const LONGEST_PARAMETERS: usize = 8;

pub const LONGEST_AUTHORIZATION: usize = 512;

// The MAC counter's last number.
pub const LAST_COUNT: usize = 65535;

// Who sets the PIN of a key, in an issuer's order.
pub const NO_PIN: u8 = 0;

pub const USER_PIN: u8 = 1;

pub const ISSUER_PIN: u8 = 2;

// ---- the reply

pub const REPLY_BYTES: usize = 37;

pub const REPLY_STATUS: usize = 0;

pub const REPLY_HANDLE: usize = 1;

pub const REPLY_ATTESTATION: usize = 5;

// ---- statuses, as the reply and C have them

pub const DONE: u8 = 0;

pub const WRONG: u8 = 1;

pub const NO_ROOM: u8 = 2;

pub const MAC_DIFFERS: u8 = 3;

pub const NOT_VERIFIED: u8 = 4;

pub const NOT_OPEN: u8 = 5;

pub const NOT_FIT: u8 = 6;

pub const NO_KEY: u8 = 7;

pub const NO_ALGORITHM: u8 = 8;

pub const NO_FORM: u8 = 16;

pub const BREAKS_RULE: u8 = 17;

pub const UNSOUND: u8 = 19;

pub const NO_PARENT: u8 = 20;

pub const SHORT_REPLY: u8 = 21;

// ---- refusals: why a call is refused. Each has its status as number

#[derive(Clone, Copy, Debug, PartialEq, Eq)]
pub enum Refusal {
    Wrong,
    NoRoom,
    MacDiffers,
    NotVerified,
    NotOpen,
    NotFit,
    NoKey,
    NoAlgorithm,
    NoForm,
    BreaksRule,
    Unsound,
    NoParent,
    ShortReply,
}

impl From<Refusal> for u8 {
    ghost from_gives = { λ e n. n ≡ number e };

    fn from(e: Refusal) -> u8 {
        match e {
            Refusal::Wrong => WRONG,
            Refusal::NoRoom => NO_ROOM,
            Refusal::MacDiffers => MAC_DIFFERS,
            Refusal::NotVerified => NOT_VERIFIED,
            Refusal::NotOpen => NOT_OPEN,
            Refusal::NotFit => NOT_FIT,
            Refusal::NoKey => NO_KEY,
            Refusal::NoAlgorithm => NO_ALGORITHM,
            Refusal::NoForm => NO_FORM,
            Refusal::BreaksRule => BREAKS_RULE,
            Refusal::Unsound => UNSOUND,
            Refusal::NoParent => NO_PARENT,
            Refusal::ShortReply => SHORT_REPLY,
        }
    }
}
