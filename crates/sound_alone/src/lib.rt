// The clauses of soundness that speak of one record: the table, field by field, and then each clause as the paper's statement of it.
// A sound record passes every test, so the tests of a kind are all made and joined without a branch.

#![tactic(auto)]

ghost use Rattle.std.specs.Prelude.{◌≡◌, ◌&&◌, ◌-◌, ◌≤◌, length, take, drop};
ghost use Rattle.paper.specs.Table.{u8 as Byte, u16 as Two, u32 as Four, blank, text, ident, is_blank, printable, field_fits, fits, session_fields, puk_fields, policy_fields, key_fields, pending_fields, counter_fields, fields_of, obeys_table};
ghost use Rattle.paper.specs.Limits.{key_bytes};
ghost use Rattle.paper.specs.Bytes.{part};
ghost use Rattle.paper.specs.Form.{test, ◌equals◌, say, ◌and◌, ◌then◌};
ghost use Rattle.paper.specs.Records.{FREE, kind, state};
ghost use Rattle.paper.specs.Sound.{session_carries, object_carries, bare_key, pinned_key, puk_counts, mac_counts, lengths_rise, target_unless_stale, alone};

use paper::{
    BY_PIN, BY_PUK, CLIENT_ID, CLOSED, COUNTER, COUNTER_END, DELETE_PROTECTION, DELETES, DIGEST,
    EXPORT_PROTECTION, FORMAT, GROUPING, HANDLE_STEP, HOME, ID, ID_BYTES, KEY, KEY_END, KEY_ERRORS,
    KEY_LIMIT, KEY_MANAGEMENT, KIND, LAST_FORMAT, LAST_GROUPING, LAST_PATTERNS, LAST_PROTECTION,
    MAC_COUNTER, MAX_LENGTH, MIN_LENGTH, MOST_OBJECTS, NEXT_OBJECT, NEXT_SESSION, OPEN, OPERATION,
    OWN, PARENT, PATH_SET, PATTERNS, PENDING, PENDING_END, PIN_BYTES, PIN_CACHING, POLICY,
    POLICY_END, PRIVACY, PUBLIC_KEY, PUBLIC_KEY_BYTES, PUK, PUK_ERRORS, RECORD_BYTES, RETRY_LIMIT,
    SESSION, SESSION_END, SESSION_KEY, SESSION_KEY_BYTES, STALE, STATE, UNLOCKS, USER_DEFINED,
    USER_MODIFIABLE, VALUE, VALUE_END,
};
use store_records::{byte_at, four_at, is_blank, is_within, part_of, two_at};

// ---- the table: a function for each form of field, and for each kind its fields in the table's order

// Zeros stand here too: behind a kind that has no fields of one byte, and behind a pending's.
const BEHIND_KIND: usize = KIND + 1;

const BEHIND_STALE: usize = STALE + 1;

// Ranges of fields that the table alone names.
const LAST_NEXT_OBJECT: usize = MOST_OBJECTS + 1;

const LAST_KEY_LIMIT: usize = 65535;

const LAST_RETRY_LIMIT: u8 = 255;

const FIRST_PRINTABLE: u8 = 0x21;

const LAST_PRINTABLE: u8 = 0x7e;

fn is_byte(r: &[u8], i: usize, lo: u8, hi: u8) -> bool
    ensures { result ≡ field_fits (Byte lo hi) i r.now }
{
    is_within(byte_at(r, i), lo, hi)
}

fn is_two(r: &[u8], i: usize, lo: usize, hi: usize) -> bool
    ensures { result ≡ field_fits (Two lo hi) i r.now }
{
    let n = two_at(r, i);
    (lo <= n) & (n <= hi)
}

fn is_four(r: &[u8], i: usize, lo: u32, hi: u32) -> bool
    ensures { result ≡ field_fits (Four lo hi) i r.now }
{
    let n = four_at(r, i);
    (lo <= n) & (n <= hi)
}

// From place i to the next field, or to the record's end.
fn blank_to(r: &[u8], i: usize, end: usize) -> bool
    requires { i ≤ end }
    ensures { result ≡ field_fits (blank (end - i)) i r.now }
{
    is_blank(part_of(r, i, end - i))
}

// Whether the bytes behind the first v are 0. A field is gone through to its end whatever v is, and the place is counted in a byte of its
// own, as v is one: so 16 places are compared with v at a time. The place that `enumerate` counts would be compared in 64 bits, two at a time.
fn blank_behind(s: &[u8], v: u8) -> bool
    requires { length s.now ≤ 255 }
    ensures { result ≡ is_blank (drop v s.now) }
{
    let mut bad = false;
    let mut p = 0u8;
    for b in s {
        bad |= (v <= p) & (*b != 0);
        p = p.wrapping_add(1);
    }
    !bad
}

// Whether the first v bytes are those of an ID as well.
fn ident_then_blank(s: &[u8], v: u8) -> bool
    requires { length s.now ≤ 255 }
    ensures { result ≡ is_blank (drop v s.now) && printable (take v s.now) }
{
    let mut bad = false;
    let mut p = 0u8;
    for b in s {
        bad |= ((p < v) & !is_within(*b, FIRST_PRINTABLE, LAST_PRINTABLE)) | ((v <= p) & (*b != 0));
        p = p.wrapping_add(1);
    }
    !bad
}

fn is_text(r: &[u8], i: usize, n: u8, lo: u8) -> bool
    requires { i ≤ 255 }
    ensures { result ≡ field_fits (text n lo) i r.now }
{
    let v = byte_at(r, i);
    is_within(v, lo, n) & blank_behind(part_of(r, i + 1, usize::from(n)), v)
}

fn is_ident(r: &[u8], i: usize, n: u8, lo: u8) -> bool
    requires { i ≤ 255 }
    ensures { result ≡ field_fits (ident n lo) i r.now }
{
    let v = byte_at(r, i);
    is_within(v, lo, n) & ident_then_blank(part_of(r, i + 1, usize::from(n)), v)
}

fn fits_session(r: &[u8]) -> bool
    ensures { result ≡ fits session_fields 0 r.now }
{
    let front = is_byte(r, KIND, SESSION, SESSION)
        & (is_byte(r, STATE, OPEN, CLOSED)
            & (is_two(r, NEXT_OBJECT, 1, LAST_NEXT_OBJECT) & blank_to(r, PARENT, ID)));
    let names = is_ident(r, ID, ID_BYTES, 1) & is_ident(r, CLIENT_ID, ID_BYTES, 1);
    let flags = is_byte(r, PRIVACY, 0, 1) & is_byte(r, KEY_MANAGEMENT, 0, 1);
    let back = flags & blank_to(r, SESSION_END, RECORD_BYTES);
    front & (names & (is_two(r, KEY_LIMIT, 1, LAST_KEY_LIMIT) & back))
}

fn fits_puk(r: &[u8]) -> bool
    ensures { result ≡ fits puk_fields 0 r.now }
{
    let front = is_byte(r, KIND, PUK, PUK)
        & (is_byte(r, FORMAT, 0, LAST_FORMAT) & blank_to(r, PARENT, ID));
    let value = is_text(r, VALUE, PIN_BYTES, 1) & blank_to(r, VALUE_END, RECORD_BYTES);
    front & (is_ident(r, ID, ID_BYTES, 1) & value)
}

fn fits_policy(r: &[u8]) -> bool
    ensures { result ≡ fits policy_fields 0 r.now }
{
    let front = is_byte(r, KIND, POLICY, POLICY)
        & (is_byte(r, FORMAT, 0, LAST_FORMAT)
            & (is_byte(r, RETRY_LIMIT, 1, LAST_RETRY_LIMIT)
                & is_byte(r, GROUPING, 0, LAST_GROUPING)));
    let flags = is_byte(r, USER_DEFINED, 0, 1)
        & (is_byte(r, USER_MODIFIABLE, 0, 1) & is_byte(r, PATTERNS, 0, LAST_PATTERNS));
    let lengths = is_byte(r, MIN_LENGTH, 1, PIN_BYTES) & is_byte(r, MAX_LENGTH, 1, PIN_BYTES);
    let back = flags & (lengths & blank_to(r, POLICY_END, RECORD_BYTES));
    front & (is_ident(r, ID, ID_BYTES, 1) & back)
}

fn fits_key(r: &[u8]) -> bool
    ensures { result ≡ fits key_fields 0 r.now }
{
    let front = is_byte(r, KIND, KEY, KEY)
        & (is_byte(r, PATH_SET, 0, 1) & is_byte(r, DELETE_PROTECTION, 0, LAST_PROTECTION));
    let pin = is_text(r, VALUE, PIN_BYTES, 0) & blank_to(r, VALUE_END, PUBLIC_KEY);
    let texts = is_ident(r, ID, ID_BYTES, 1) & pin;
    let public = is_text(r, PUBLIC_KEY, PUBLIC_KEY_BYTES, 1) & is_byte(r, PIN_CACHING, 0, 1);
    let back = is_byte(r, EXPORT_PROTECTION, 0, LAST_PROTECTION)
        & blank_to(r, KEY_END, RECORD_BYTES);
    front & (texts & (public & back))
}

fn fits_pending(r: &[u8]) -> bool
    ensures { result ≡ fits pending_fields 0 r.now }
{
    let front = is_byte(r, KIND, PENDING, PENDING)
        & (is_byte(r, OPERATION, DELETES, UNLOCKS)
            & (is_byte(r, STALE, 0, 1) & blank_to(r, BEHIND_STALE, OWN)));
    front & blank_to(r, PENDING_END, RECORD_BYTES)
}

fn fits_counter(r: &[u8]) -> bool
    ensures { result ≡ fits counter_fields 0 r.now }
{
    let front = is_byte(r, KIND, COUNTER, COUNTER) & blank_to(r, BEHIND_KIND, NEXT_SESSION);
    front & (is_four(r, NEXT_SESSION, 1, HANDLE_STEP) & blank_to(r, COUNTER_END, RECORD_BYTES))
}

// A free record's fields; no other kind has any other.
fn fits_free(r: &[u8]) -> bool
    ensures { result ≡ fits (fields_of FREE) 0 r.now }
{
    is_byte(r, KIND, paper::FREE, paper::FREE) & blank_to(r, BEHIND_KIND, RECORD_BYTES)
}

fn fits_kind(r: &[u8], k: u8) -> bool
    ensures { result ≡ fits (fields_of k) 0 r.now }
{
    match k {
        SESSION => fits_session(r),
        PUK => fits_puk(r),
        POLICY => fits_policy(r),
        KEY => fits_key(r),
        PENDING => fits_pending(r),
        COUNTER => fits_counter(r),
        _ => fits_free(r),
    }
}

// Whether a record obeys the table.
pub fn obeys(r: &[u8]) -> bool
    ensures { result ≡ obeys_table r.now }
{
    if r.len() != RECORD_BYTES {
        return false;
    }
    fits_kind(r, byte_at(r, KIND))
}

// ---- the other clauses of one record, and all of them together

fn session_carries(r: &[u8]) -> bool
    ensures { result ≡ test (session_carries r.now) }
{
    let own = four_at(r, OWN);
    let numbered = (HANDLE_STEP <= own) & (own % HANDLE_STEP == 0);
    !(byte_at(r, KIND) == SESSION) | ((own == four_at(r, HOME)) & numbered)
}

fn object_carries(r: &[u8]) -> bool
    ensures { result ≡ test (object_carries r.now) }
{
    let k = byte_at(r, KIND);
    let own = u64::from(four_at(r, OWN));
    let session = u64::from(four_at(r, HOME));
    let numbered = (session + 1 <= own) & (own <= session + MOST_OBJECTS as u64);
    !((PUK <= k) & (k <= PENDING)) | numbered
}

fn bare_key(r: &[u8]) -> bool
    ensures { result ≡ test (bare_key r.now) }
{
    let d = byte_at(r, DELETE_PROTECTION);
    let bare = (byte_at(r, VALUE) == 0)
        & ((byte_at(r, KEY_ERRORS) == 0) & (!(d == BY_PIN) & !(d == BY_PUK)));
    !(byte_at(r, KIND) == KEY) | (!(four_at(r, PARENT) == 0) | bare)
}

fn pinned_key(r: &[u8]) -> bool
    ensures { result ≡ test (pinned_key r.now) }
{
    !(byte_at(r, KIND) == KEY) | (!(four_at(r, PARENT) != 0) | (byte_at(r, VALUE) != 0))
}

fn puk_counts(r: &[u8]) -> bool
    ensures { result ≡ test (puk_counts r.now) }
{
    !(byte_at(r, KIND) == PUK) | (byte_at(r, PUK_ERRORS) <= byte_at(r, RETRY_LIMIT))
}

fn mac_counts(r: &[u8]) -> bool
    ensures { result ≡ test (mac_counts r.now) }
{
    !(byte_at(r, KIND) == SESSION) | (two_at(r, MAC_COUNTER) <= two_at(r, KEY_LIMIT))
}

fn lengths_rise(r: &[u8]) -> bool
    ensures { result ≡ test (lengths_rise r.now) }
{
    !(byte_at(r, KIND) == POLICY) | (byte_at(r, MIN_LENGTH) <= byte_at(r, MAX_LENGTH))
}

// 32 bytes of a record of kind k are 0 while its byte 1, the state or the path, is v: a closed session's SessionKey, and the digest of
// a key without path.
fn wiped_while(r: &[u8], k: u8, v: u8, from: usize) -> bool
    ensures { result ≡ test (kind r.now equals k and state r.now equals v then say (is_blank (part from key_bytes r.now))) }
{
    if byte_at(r, KIND) != k {
        return true;
    }
    if byte_at(r, STATE) != v {
        return true;
    }
    is_blank(part_of(r, from, SESSION_KEY_BYTES))
}

fn target_unless_stale(r: &[u8]) -> bool
    ensures { result ≡ test (target_unless_stale r.now) }
{
    let none = four_at(r, PARENT) == 0;
    let stale = byte_at(r, STALE) == 1;
    !(byte_at(r, KIND) == PENDING) | ((!stale | none) & (!none | stale))
}

// Whether a record by itself is as a sound store's records are: it obeys the table, and the clauses that speak of its kind hold.
pub fn is_alone(r: &[u8]) -> bool
    ensures { result ≡ test (alone r.now) }
{
    if !obeys(r) {
        return false;
    }
    match byte_at(r, KIND) {
        SESSION => {
            let wiped = wiped_while(r, SESSION, CLOSED, SESSION_KEY);
            session_carries(r) & (mac_counts(r) & wiped)
        }
        PUK => object_carries(r) & puk_counts(r),
        POLICY => object_carries(r) & lengths_rise(r),
        KEY => {
            let pinned = pinned_key(r) & wiped_while(r, KEY, 0, DIGEST);
            object_carries(r) & (bare_key(r) & pinned)
        }
        PENDING => object_carries(r) & target_unless_stale(r),
        _ => true,
    }
}
