// The clauses of soundness that speak of two records, each as the paper's statement of it. They are tried on every pair, so the kinds
// decide first: most pairs are done after one or two bytes, and IDs are compared only where two objects bear one session.

#![tactic(auto)]

ghost use Rattle.std.specs.Prelude.{◌≡◌};
ghost use Rattle.paper.specs.Form.{test};
ghost use Rattle.paper.specs.Sound.{has_handle, has_id, is_object, one_counter, handles_differ, ids_differ, clients_differ, one_pending, distinct, below_next, below_counter, governs, paths_set, pending_open, target_managed, target_pinned, related, closed};
ghost use Rattle.sound_pairs.specs.Kinds.{of_session, of_policy, concerned};

use hmac::is_same;
use paper::{
    BY_PUK, CLIENT_ID, CLOSED, COUNTER, DELETE_PROTECTION, HANDLE_STEP, HOME, ID, ID_WIDTH, KEY,
    KEY_ERRORS, KEY_MANAGEMENT, KIND, NEXT_OBJECT, NEXT_SESSION, OPEN, OPERATION, OWN, PARENT,
    PATH_SET, PENDING, POLICY, PUK, RETRY_LIMIT, SESSION, STATE, UNLOCKS,
};
use store_records::{byte_at, four_at, part_of, session_of, two_at};

fn one_counter(x: &[u8], y: &[u8]) -> bool
    ensures { result ≡ test (one_counter x.now y.now) }
{
    !(byte_at(x, KIND) == COUNTER) | !(byte_at(y, KIND) == COUNTER)
}

// Whether a record has a handle of its own, and whether it has an ID.
pub fn has_handle(r: &[u8]) -> bool
    ensures { result ≡ test (has_handle r.now) }
{
    let k = byte_at(r, KIND);
    (SESSION <= k) & (k <= PENDING)
}

fn handles_differ(x: &[u8], y: &[u8]) -> bool
    ensures { result ≡ test (handles_differ x.now y.now) }
{
    !has_handle(x) | (!has_handle(y) | !(four_at(x, OWN) == four_at(y, OWN)))
}

pub fn has_id(r: &[u8]) -> bool
    ensures { result ≡ test (has_id r.now) }
{
    let k = byte_at(r, KIND);
    (PUK <= k) & (k <= KEY)
}

fn ids_differ(x: &[u8], y: &[u8]) -> bool
    ensures { result ≡ test (ids_differ x.now y.now) }
{
    if !has_id(x) {
        return true;
    }
    if !has_id(y) {
        return true;
    }
    if four_at(x, HOME) != four_at(y, HOME) {
        return true;
    }
    !is_same(part_of(x, ID, ID_WIDTH), part_of(y, ID, ID_WIDTH))
}

fn clients_differ(x: &[u8], y: &[u8]) -> bool
    ensures { result ≡ test (clients_differ x.now y.now) }
{
    if byte_at(x, KIND) != SESSION {
        return true;
    }
    if byte_at(y, KIND) != SESSION {
        return true;
    }
    !is_same(
        part_of(x, CLIENT_ID, ID_WIDTH),
        part_of(y, CLIENT_ID, ID_WIDTH),
    )
}

fn one_pending(x: &[u8], y: &[u8]) -> bool
    ensures { result ≡ test (one_pending x.now y.now) }
{
    if byte_at(x, KIND) != PENDING {
        return true;
    }
    let p = four_at(x, PARENT);
    let apart = !(four_at(x, HOME) == four_at(y, HOME)) | (!(p == four_at(y, PARENT)) | (p == 0));
    !(byte_at(y, KIND) == PENDING) | apart
}

// Whether two records at different places are as two of a sound store. Two of different sessions can clash by their handles alone, as
// two sessions, or as two counters.
pub fn are_distinct(x: &[u8], y: &[u8]) -> bool
    ensures { result ≡ test (distinct x.now y.now) }
{
    let apart = one_counter(x, y) & (handles_differ(x, y) & clients_differ(x, y));
    if four_at(x, HOME) != four_at(y, HOME) {
        return apart;
    }
    apart & (ids_differ(x, y) & one_pending(x, y))
}

// Whether a record is an object: a PUK, a PIN policy, a key or a pending.
pub fn is_object(r: &[u8]) -> bool
    ensures { result ≡ test (is_object r.now) }
{
    let k = byte_at(r, KIND);
    (PUK <= k) & (k <= PENDING)
}

fn below_next(x: &[u8], y: &[u8]) -> bool
    ensures { result ≡ test (below_next x.now y.now) }
{
    let own = u64::from(four_at(x, OWN));
    let next = own + two_at(x, NEXT_OBJECT) as u64;
    let below = !(u64::from(four_at(y, HOME)) == own) | (u64::from(four_at(y, OWN)) + 1 <= next);
    !(byte_at(x, KIND) == SESSION) | (!is_object(y) | below)
}

// Whether x is a closed session.
pub fn is_closed(x: &[u8]) -> bool
    ensures { result ≡ test (closed x.now) }
{
    (byte_at(x, KIND) == SESSION) & (byte_at(x, STATE) == CLOSED)
}

fn paths_set(x: &[u8], y: &[u8]) -> bool
    ensures { result ≡ test (paths_set x.now y.now) }
{
    let set = !(four_at(y, HOME) == four_at(x, OWN)) | (byte_at(y, PATH_SET) == 1);
    !is_closed(x) | (!(byte_at(y, KIND) == KEY) | set)
}

fn pending_open(x: &[u8], y: &[u8]) -> bool
    ensures { result ≡ test (pending_open x.now y.now) }
{
    let is_open = !(four_at(y, HOME) == four_at(x, OWN)) | (byte_at(x, STATE) == OPEN);
    !(byte_at(x, KIND) == SESSION) | (!(byte_at(y, KIND) == PENDING) | is_open)
}

fn target_managed(x: &[u8], y: &[u8]) -> bool
    ensures { result ≡ test (target_managed x.now y.now) }
{
    let p = four_at(y, PARENT);
    let managed = (byte_at(x, STATE) == CLOSED) & (byte_at(x, KEY_MANAGEMENT) == 1);
    let aimed = !(p != 0) | (!(four_at(x, OWN) == session_of(p)) | managed);
    !(byte_at(x, KIND) == SESSION) | (!(byte_at(y, KIND) == PENDING) | aimed)
}

fn session_related(x: &[u8], y: &[u8]) -> bool
    ensures { result ≡ test (of_session x.now y.now) }
{
    if !is_object(y) {
        return true;
    }
    below_next(x, y) & (paths_set(x, y) & (pending_open(x, y) & target_managed(x, y)))
}

// Whether y is a key under the policy x.
pub fn is_governed(x: &[u8], y: &[u8]) -> bool
    ensures { result ≡ test (governs x.now y.now) }
{
    if byte_at(x, KIND) != POLICY {
        return false;
    }
    if byte_at(y, KIND) != KEY {
        return false;
    }
    if four_at(y, PARENT) != four_at(x, OWN) {
        return false;
    }
    four_at(y, HOME) == four_at(x, HOME)
}

fn policy_related(x: &[u8], y: &[u8]) -> bool
    ensures { result ≡ test (of_policy x.now y.now) }
{
    if byte_at(y, KIND) != KEY {
        return true;
    }
    if !is_governed(x, y) {
        return true;
    }
    let guarded = !(byte_at(y, DELETE_PROTECTION) == BY_PUK) | (four_at(x, PARENT) != 0);
    guarded & (byte_at(y, KEY_ERRORS) <= byte_at(x, RETRY_LIMIT))
}

fn target_pinned(x: &[u8], y: &[u8]) -> bool
    ensures { result ≡ test (target_pinned x.now y.now) }
{
    if byte_at(y, KIND) != PENDING {
        return true;
    }
    let pinned = !(byte_at(y, OPERATION) == UNLOCKS) | (four_at(x, PARENT) != 0);
    !(byte_at(x, KIND) == KEY) | (!(four_at(y, PARENT) == four_at(x, OWN)) | pinned)
}

fn below_counter(x: &[u8], y: &[u8]) -> bool
    ensures { result ≡ test (below_counter x.now y.now) }
{
    let next = u64::from(four_at(x, NEXT_SESSION)) * u64::from(HANDLE_STEP);
    let below = u64::from(four_at(y, OWN)) + 1 <= next;
    !(byte_at(x, KIND) == COUNTER) | (!(byte_at(y, KIND) == SESSION) | below)
}

// Whether x says anything of any other record.
pub fn is_concerned(x: &[u8]) -> bool
    ensures { result ≡ test (concerned x.now) }
{
    let k = byte_at(x, KIND);
    let bare = (k == KEY) & (four_at(x, PARENT) == 0);
    (k == SESSION) | ((k == POLICY) | (bare | (k == COUNTER)))
}

// Whether what x says of y holds.
pub fn is_related(x: &[u8], y: &[u8]) -> bool
    ensures { result ≡ test (related x.now y.now) }
{
    match byte_at(x, KIND) {
        SESSION => session_related(x, y),
        POLICY => policy_related(x, y),
        KEY => target_pinned(x, y),
        _ => below_counter(x, y),
    }
}
