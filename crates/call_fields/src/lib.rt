// A call taken apart: for each method its numbers, and the places where its strings stand, by value. A string is the part
// `string_at(c, place)` of the call, a MAC the 32 bytes at its place. Every field is read wherever it would stand,
// whatever the call is: past the end a number is 0 and a part is shorter. What the fields are is said in the paper's Calls.

#![tactic(auto)]

ghost use Rattle.std.specs.Prelude.{◌≡◌, [], ◌+◌, ◌*◌, ◌≤◌};
ghost use Rattle.sha256.specs.Sha256.{SHA256};
ghost use Rattle.hmac.specs.Same.{same};
ghost use Rattle.paper.specs.Bytes.{behind, ascii};
ghost use Rattle.paper.specs.Calls.{Key, behind_strings, key_in, path_in};
ghost use Rattle.paper.specs.Mac.{issuer_sets};
ghost use Rattle.paper.specs.Objects.{pin_of};
ghost use Rattle.call_fields.specs.Fields.{create_fields, close_fields, puk_fields, policy_fields, key_fields, key_of, path_fields, post_fields, typed_fields};

use paper::{
    ALGORITHM, AUTHORIZATION, BEHIND_SUBJECT, CERTIFICATE_COUNT, CERTIFICATES, CHIP_PUBLIC_KEY,
    HANDLE_BYTES, MAC_BYTES, TIMES_BYTES, USER_DEFINED,
};
use store_records::{behind_at, byte_at, four_at, part_of, string_at, two_at};

// 2: the times and the key limit. 10: the count of endorsed algorithms.
const TIMES_AND_LIMIT: usize = TIMES_BYTES + 2;

const COUNT_BYTES: usize = 2;

// 8: format and retry limit, one byte each.
const RETRY_BEHIND: usize = 1;

const PUK_RULES: usize = 2;

// 9, behind the ID: the PUK's handle, then nine bytes.
const DEFINED: usize = 4;

const MODIFIABLE: usize = 5;

const FORMAT: usize = 6;

const RETRY: usize = 7;

const GROUPING: usize = 8;

const PATTERNS: usize = 9;

const MIN: usize = 10;

const MAX: usize = 11;

const INPUT: usize = 12;

const POLICY_RULES: usize = 13;

// 10, behind PINValue: caching and four bytes more.
const BIOMETRIC: usize = 1;

const EXPORT: usize = 2;

const DELETION: usize = 3;

const USAGE: usize = 4;

const KEY_FLAGS: usize = 5;

// The place behind the string at k: all that a decoder does.
fn behind_one(c: &[u8], k: usize) -> usize
    requires { k ≤ 20000000 }
    ensures { (result ≡ behind k c.now) × (result ≤ k + 65537) }
{
    behind_at(c, k as u32)
}

// The place behind n strings, of which the first stands at k.
#[tactic(auto, using(crate::proofs::Strings::behind_more))]
fn skip(c: &[u8], n: u8, k: usize) -> usize
    requires { k ≤ 1000000 }
    ensures { (result ≡ behind_strings n k c.now) × (result ≤ k + n * 65537) }
{
    let mut at = k;
    for _ in 0..n {
        at = behind_one(c, at);
    }
    at
}

// The same for other crates, which know nothing of such a bound.
pub fn behind_strings(c: &[u8], k: u16, n: u8) -> usize
    ensures { result ≡ behind_strings n k c.now }
{
    skip(c, n, usize::from(k))
}

// 2 createProvisioningSession
#[derive(Clone, Copy)]
pub struct CreateFields {
    pub privacy: u8,
    pub server: usize,
    pub ephemeral: usize,
    pub issuer: usize,
    pub management: usize,
    pub times: usize,
    pub limit: usize,
    pub end: usize,
}

pub fn create_fields(c: &[u8]) -> CreateFields
    ensures { result ≡ create_fields c.now }
{
    let privacy = behind_one(c, ALGORITHM);
    let server = privacy + 1;
    let ephemeral = behind_one(c, server);
    let issuer = behind_one(c, ephemeral);
    let management = behind_one(c, issuer);
    let times = behind_one(c, management);
    CreateFields {
        privacy: byte_at(c, privacy),
        server,
        ephemeral,
        issuer,
        management,
        times,
        limit: two_at(c, times + TIMES_BYTES),
        end: times + TIMES_AND_LIMIT,
    }
}

// 3 closeProvisioningSession
#[derive(Clone, Copy)]
pub struct CloseFields {
    pub mac: usize,
    pub end: usize,
}

pub fn close_fields(c: &[u8]) -> CloseFields
    ensures { result ≡ close_fields c.now }
{
    let mac = behind_one(c, BEHIND_SUBJECT);
    CloseFields {
        mac,
        end: mac + MAC_BYTES,
    }
}

// 8 createPUKPolicy
#[derive(Clone, Copy)]
pub struct PukFields {
    pub encrypted: usize,
    pub format: u8,
    pub retry: u8,
    pub mac: usize,
    pub end: usize,
}

pub fn puk_fields(c: &[u8]) -> PukFields
    ensures { result ≡ puk_fields c.now }
{
    let encrypted = behind_one(c, BEHIND_SUBJECT);
    let rules = behind_one(c, encrypted);
    PukFields {
        encrypted,
        format: byte_at(c, rules),
        retry: byte_at(c, rules + RETRY_BEHIND),
        mac: rules + PUK_RULES,
        end: rules + PUK_RULES + MAC_BYTES,
    }
}

// 9 createPINPolicy
#[derive(Clone, Copy)]
pub struct PolicyFields {
    pub puk: u32,
    pub defined: u8,
    pub modifiable: u8,
    pub format: u8,
    pub retry: u8,
    pub grouping: u8,
    pub patterns: u8,
    pub min: u8,
    pub max: u8,
    pub input: u8,
    pub mac: usize,
    pub end: usize,
}

pub fn policy_fields(c: &[u8]) -> PolicyFields
    ensures { result ≡ policy_fields c.now }
{
    let k = behind_one(c, BEHIND_SUBJECT);
    PolicyFields {
        puk: four_at(c, k),
        defined: byte_at(c, k + DEFINED),
        modifiable: byte_at(c, k + MODIFIABLE),
        format: byte_at(c, k + FORMAT),
        retry: byte_at(c, k + RETRY),
        grouping: byte_at(c, k + GROUPING),
        patterns: byte_at(c, k + PATTERNS),
        min: byte_at(c, k + MIN),
        max: byte_at(c, k + MAX),
        input: byte_at(c, k + INPUT),
        mac: k + POLICY_RULES,
        end: k + POLICY_RULES + MAC_BYTES,
    }
}

// 10 createKeyEntry
#[derive(Clone, Copy)]
pub struct KeyFields {
    pub entry: usize,
    pub seed: usize,
    pub policy: u32,
    pub pin: usize,
    pub caching: u8,
    pub biometric: u8,
    pub export: u8,
    pub deletion: u8,
    pub usage: u8,
    pub friendly: usize,
    pub algorithm: usize,
    pub parameters: usize,
    pub endorsed: usize,
    pub mac: usize,
    pub end: usize,
}

pub fn key_fields(c: &[u8]) -> KeyFields
    ensures { result ≡ key_fields c.now }
{
    let entry = behind_one(c, BEHIND_SUBJECT);
    let seed = behind_one(c, entry);
    let policy = behind_one(c, seed);
    let flags = behind_one(c, policy + HANDLE_BYTES);
    let friendly = flags + KEY_FLAGS;
    let algorithm = behind_one(c, friendly);
    let parameters = behind_one(c, algorithm);
    let endorsed = behind_one(c, parameters);
    KeyFields {
        entry,
        seed,
        policy: four_at(c, policy),
        pin: policy + HANDLE_BYTES,
        caching: byte_at(c, flags),
        biometric: byte_at(c, flags + BIOMETRIC),
        export: byte_at(c, flags + EXPORT),
        deletion: byte_at(c, flags + DELETION),
        usage: byte_at(c, flags + USAGE),
        friendly,
        algorithm,
        parameters,
        endorsed: two_at(c, endorsed),
        mac: endorsed + COUNT_BYTES,
        end: endorsed + COUNT_BYTES + MAC_BYTES,
    }
}

// 12 setCertificatePath
#[derive(Clone, Copy)]
pub struct PathFields {
    pub key: u32,
    pub count: u8,
    pub mac: usize,
    pub end: usize,
}

pub fn path_fields(c: &[u8]) -> PathFields
    ensures { result ≡ path_fields c.now }
{
    let count = byte_at(c, CERTIFICATE_COUNT);
    let mac = skip(c, count, CERTIFICATES);
    PathFields {
        key: four_at(c, BEHIND_SUBJECT),
        count,
        mac,
        end: mac + MAC_BYTES,
    }
}

// 50 postDeleteKey, 51 postUnlockKey
#[derive(Clone, Copy)]
pub struct PostFields {
    pub key: u32,
    pub mac: usize,
    pub end: usize,
}

pub fn post_fields(c: &[u8]) -> PostFields
    ensures { result ≡ post_fields c.now }
{
    let mac = behind_one(c, AUTHORIZATION);
    PostFields {
        key: four_at(c, BEHIND_SUBJECT),
        mac,
        end: mac + MAC_BYTES,
    }
}

// 80, 82, 100: what is typed stands at 5; 83: a new PIN stands behind it
#[derive(Clone, Copy)]
pub struct TypedFields {
    pub second: usize,
    pub end: usize,
}

pub fn typed_fields(c: &[u8]) -> TypedFields
    ensures { result ≡ typed_fields c.now }
{
    let second = behind_one(c, BEHIND_SUBJECT);
    TypedFields {
        second,
        end: behind_one(c, second),
    }
}

// The end-entity certificate, as a part of the call, and its digest.
pub fn first_certificate<'a>(c: &'a [u8]) -> &'a [u8]
    ensures { result.now ≡ (path_in c.now).first }
{
    call_reader::string_in(c, CERTIFICATES)
}

pub fn first_digest(c: &[u8]) -> [u8; 32]
    ensures { result ≡ SHA256 (path_in c.now).first }
{
    sha256::sha256(first_certificate(c))
}

// What a key's call names by this handle is a policy under which the issuer sets the PIN.
pub fn issuer_sets(handle: u32, policy: &[u8]) -> bool
    ensures { (q : Key) → q.policy ≡ handle → result ≡ issuer_sets q policy.now }
{
    handle != 0 && byte_at(policy, USER_DEFINED) == 0
}

// The PIN that the chip opened for method 10. The public key stands before it.
pub fn opened<'a>(chip: &'a [u8]) -> &'a [u8]
    ensures { result.now ≡ (key_in [] chip.now).opened }
{
    string_at(chip, behind_one(chip, CHIP_PUBLIC_KEY))
}

// The PIN of a new key, as a part of the call (UserDefined) or of the chip bytes; without policy it is empty.
pub fn pin<'a>(q: KeyFields, c: &'a [u8], chip: &'a [u8], policy: &[u8]) -> &'a [u8]
    ensures { result.now ≡ pin_of (key_of q c.now chip.now) policy.now }
{
    if q.policy == 0 {
        return part_of(c, 0, 0);
    }
    if issuer_sets(q.policy, policy) {
        return opened(chip);
    }
    string_at(c, q.pin)
}

// Whether the algorithm strings of methods 2 and 10 are those that the paper names.
pub fn is_session_algorithm(v: &[u8]) -> bool
    ensures { result ≡ same v.now (ascii "http://xmlns.webpki.org/sks/algorithm#session.1") }
{
    store_records::same(v, b"http://xmlns.webpki.org/sks/algorithm#session.1")
}

pub fn is_entry_algorithm(v: &[u8]) -> bool
    ensures { result ≡ same v.now (ascii "http://xmlns.webpki.org/sks/algorithm#key.1") }
{
    store_records::same(v, b"http://xmlns.webpki.org/sks/algorithm#key.1")
}

pub fn is_key_algorithm(v: &[u8]) -> bool
    ensures { result ≡ same v.now (ascii "urn:oid:1.2.840.10045.3.1.7") }
{
    store_records::same(v, b"urn:oid:1.2.840.10045.3.1.7")
}
