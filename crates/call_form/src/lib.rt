// Whether a call and its chip bytes have the form of their method, for every slice. Each test is the paper's statement of that name
// in Calls, clause by clause: the tests are total, so all of them may be asked, and none hides another. A call on a session comes with its
// fields decoded, so that whoever decodes them does it once.

#![tactic(auto)]

ghost use Rattle.std.specs.Prelude.{◌≡◌};
ghost use Rattle.paper.specs.Form.{test};
ghost use Rattle.paper.specs.Calls.{is_session_call, is_user_call, known, length_at, id_at, abort_form, filled_at, typed_form, change_form};
ghost use Rattle.call_form.specs.Forms.{create_form_of, close_form_of, puk_form_of, policy_form_of, key_chip, key_form_of, path_form_of, post_form_of};

use call_fields::{
    CloseFields, CreateFields, KeyFields, PathFields, PolicyFields, PostFields, PukFields,
};
use paper::{
    AUTHORIZATION, BEHIND_SUBJECT, CERTIFICATES, CHIP_CLIENT_ID, CHIP_PUBLIC_KEY, ID_BYTES,
    LONGEST_AUTHORIZATION, LONGEST_CALL, LONGEST_ENCRYPTED, LONGEST_MANAGEMENT_KEY, LONGEST_NAME,
    LONGEST_NONCE, LONGEST_PARAMETERS, LONGEST_PIN_VALUE, LONGEST_SEED, LONGEST_SERVER_KEY,
    LONGEST_URI, METHOD, PIN_BYTES, PUBLIC_KEY_BYTES, SHORTEST_CALL,
};
use store_records::{all_within, behind_at, byte_at, string_at, two_at};

// A string starts with its length.
const LENGTH_BYTES: usize = 2;

// Calls on a session, calls of the user, and the first 16: the method is known and the length fits.
pub fn is_session_call(c: &[u8]) -> bool
    ensures { result ≡ test (is_session_call c.now) }
{
    matches!(byte_at(c, METHOD), 3 | 5 | 8..=10 | 12 | 50 | 51)
}

pub fn is_user_call(c: &[u8]) -> bool
    ensures { result ≡ test (is_user_call c.now) }
{
    matches!(byte_at(c, METHOD), 80 | 82 | 83 | 100)
}

pub fn is_known(c: &[u8]) -> bool
    ensures { result ≡ test (known c.now) }
{
    let method = (byte_at(c, METHOD) == 2) | (is_session_call(c) | is_user_call(c));
    (SHORTEST_CALL <= c.len()) & ((c.len() <= LONGEST_CALL) & method)
}

// Whether the string at place k has a length in a range, and whether it is an ID.
fn has_length(c: &[u8], k: usize, lo: usize, hi: usize) -> bool
    ensures { result ≡ test (length_at lo hi k c.now) }
{
    let n = two_at(c, k);
    (lo <= n) & (n <= hi)
}

fn has_id(c: &[u8], k: usize) -> bool
    ensures { result ≡ test (id_at k c.now) }
{
    has_length(c, k, 1, ID_BYTES as usize) & all_within(string_at(c, k), 0x21, 0x7E)
}

// 2 createProvisioningSession. The chip bytes are a SessionKey of 32 bytes and a ClientSessionID.
pub fn is_create(q: CreateFields, c: &[u8], chip: &[u8]) -> bool
    ensures { result ≡ test (create_form_of q c.now chip.now) }
{
    let made = has_id(chip, CHIP_CLIENT_ID)
        & (behind_at(chip, CHIP_CLIENT_ID as u32) == chip.len());
    let keys = has_length(c, q.management, 0, LONGEST_MANAGEMENT_KEY) & ((q.end == c.len()) & made);
    let texts = has_length(c, q.ephemeral, 1, LONGEST_SERVER_KEY)
        & (has_length(c, q.issuer, 1, LONGEST_URI) & keys);
    (q.privacy <= 1) & (has_id(c, q.server) & texts)
}

// 3 closeProvisioningSession
pub fn is_close(q: CloseFields, c: &[u8], chip: &[u8]) -> bool
    ensures { result ≡ test (close_form_of q c.now chip.now) }
{
    has_length(c, BEHIND_SUBJECT, 1, LONGEST_NONCE) & ((q.end == c.len()) & (chip.len() == 0))
}

// 5 abortProvisioningSession
pub fn is_abort(c: &[u8], chip: &[u8]) -> bool
    ensures { result ≡ test (abort_form c.now chip.now) }
{
    (c.len() == BEHIND_SUBJECT) & (chip.len() == 0)
}

// 8 createPUKPolicy. The chip bytes are the opened value.
pub fn is_puk(q: PukFields, c: &[u8], chip: &[u8]) -> bool
    ensures { result ≡ test (puk_form_of q c.now chip.now) }
{
    let value = (1 <= chip.len()) & (chip.len() <= PIN_BYTES as usize);
    let rest = has_length(c, q.encrypted, 1, LONGEST_ENCRYPTED) & ((q.end == c.len()) & value);
    has_id(c, BEHIND_SUBJECT) & rest
}

// 9 createPINPolicy
pub fn is_policy(q: PolicyFields, c: &[u8], chip: &[u8]) -> bool
    ensures { result ≡ test (policy_form_of q c.now chip.now) }
{
    let rest = (q.end == c.len()) & (chip.len() == 0);
    has_id(c, BEHIND_SUBJECT) & ((q.defined <= 1) & ((q.modifiable <= 1) & rest))
}

// 10 createKeyEntry. The chip bytes are a public key and an opened PIN.
fn is_key_chip(chip: &[u8]) -> bool
    ensures { result ≡ test (key_chip chip.now) }
{
    let k = behind_at(chip, CHIP_PUBLIC_KEY as u32);
    let end = behind_at(chip, k as u32);
    has_length(chip, CHIP_PUBLIC_KEY, 1, PUBLIC_KEY_BYTES as usize)
        & (has_length(chip, k, 0, PIN_BYTES as usize) & (end == chip.len()))
}

pub fn is_key(q: KeyFields, c: &[u8], chip: &[u8]) -> bool
    ensures { result ≡ test (key_form_of q c.now chip.now) }
{
    let rest = has_length(c, q.parameters, 0, LONGEST_PARAMETERS)
        & ((q.end == c.len()) & is_key_chip(chip));
    let names = (q.caching <= 1) & (has_length(c, q.friendly, 0, LONGEST_NAME) & rest);
    let values = has_length(c, q.seed, 0, LONGEST_SEED)
        & (has_length(c, q.pin, 0, LONGEST_PIN_VALUE) & names);
    has_id(c, BEHIND_SUBJECT) & values
}

// 12 setCertificatePath. Each of n strings from place k on has at least one byte.
#[tactic(auto, using(crate::proofs::Filled::filled_more), unfolding(paper::specs::Bytes::behind))]
pub fn are_filled(c: &[u8], k: u16, n: u8) -> bool
    ensures { result ≡ test (filled_at n k c.now) }
{
    let mut at = usize::from(k);
    for _ in 0..n {
        let size = two_at(c, at);
        if size == 0 {
            return false;
        }
        at += LENGTH_BYTES + size;
    }
    true
}

pub fn is_path(q: PathFields, c: &[u8], chip: &[u8]) -> bool
    ensures { result ≡ test (path_form_of q c.now chip.now) }
{
    let rest = (q.end == c.len()) & (chip.len() == 0);
    (1 <= q.count) & (are_filled(c, CERTIFICATES as u16, q.count) & rest)
}

// 50 postDeleteKey, 51 postUnlockKey. The chip byte tells whether the signature verified.
pub fn is_post(q: PostFields, c: &[u8], chip: &[u8]) -> bool
    ensures { result ≡ test (post_form_of q c.now chip.now) }
{
    let rest = (chip.len() == 1) & (byte_at(chip, 0) <= 1);
    has_length(c, AUTHORIZATION, 1, LONGEST_AUTHORIZATION) & ((q.end == c.len()) & rest)
}

// 80 delete, 82 unlock, 100 use
pub fn is_typed(c: &[u8], chip: &[u8]) -> bool
    ensures { result ≡ test (typed_form c.now chip.now) }
{
    let q = call_fields::typed_fields(c);
    has_length(c, BEHIND_SUBJECT, 0, PIN_BYTES as usize)
        & ((q.second == c.len()) & (chip.len() == 0))
}

// 83 change
pub fn is_change(c: &[u8], chip: &[u8]) -> bool
    ensures { result ≡ test (change_form c.now chip.now) }
{
    let q = call_fields::typed_fields(c);
    let rest = (q.end == c.len()) & (chip.len() == 0);
    has_length(c, BEHIND_SUBJECT, 0, PIN_BYTES as usize)
        & (has_length(c, q.second, 0, PIN_BYTES as usize) & rest)
}
