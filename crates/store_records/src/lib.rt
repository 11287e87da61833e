// A lent store as records, over total readers of any slice of bytes. Past the end of a slice a byte is 0 and a part is the shorter part;
// past the last whole record a record is empty, and every byte of it reads 0. So nothing is asked of any slice, and every promise is that
// of the paper's Bytes and Records. First the readers, then records and look-ups, then the key that a call names with its kin.

#![tactic(auto)]

ghost use Rattle.std.specs.Prelude.{◌≡◌, ◌+◌, ◌*◌, ◌≤◌, [], length, get_or};
ghost use Rattle.hmac.specs.Same.{same as same_bytes};
ghost use Rattle.paper.specs.Bytes.{byte, two, four, part, string_at, behind, text_at, within, all_within};
ghost use Rattle.paper.specs.Form.{test, ◌equals◌, some, seek};
ghost use Rattle.paper.specs.Records.{records, is, bears as bears_it, is_free, at, session_of};
ghost use Rattle.paper.specs.Closing.{held};
ghost use Rattle.store_records.specs.View.{index, Shows};
ghost use Rattle.store_records.specs.Choices.{chosen};
ghost use Rattle.paper.specs.Posting.{target as target_of, home as home_of, is_target};
ghost use Rattle.paper.specs.Users.{policy_of, puk_of};

use paper::{
    CLOSED, FREE, HANDLE_STEP, HOME, KEY, KIND, OWN, PARENT, PENDING, POLICY, PUK, RECORD_BYTES,
    RETRY_LIMIT, SESSION, STALE, STATE,
};
use std::slice::ChunksExact;

// ---- bytes, numbers and parts of any slice

fn join2(a: u8, b: u8) -> usize
    ensures { (result ≡ a * 256 + b) × (result ≤ 65535) }
{
    u16::from_be_bytes([a, b]) as usize
}

fn join4(a: u8, b: u8, c: u8, d: u8) -> u32
    ensures { result ≡ ((a * 256 + b) * 256 + c) * 256 + d }
{
    u32::from_be_bytes([a, b, c, d])
}

// The byte at place k.
pub fn byte_at(s: &[u8], k: usize) -> u8
    ensures { result ≡ byte k s.now }
{
    s.get(k).copied().unwrap_or(0)
}

// The same as a length or a place.
pub fn size_at(s: &[u8], k: usize) -> usize
    ensures { (result ≡ byte k s.now) × (result ≤ 255) }
{
    byte_at(s, k) as usize
}

// The number of two bytes at place k. Where both are there they are read at once; only at the end does each byte ask for itself.
pub fn two_at(s: &[u8], k: usize) -> usize
    ensures { (result ≡ two k s.now) × (result ≤ 65535) }
{
    if s.len() <= k {
        return 0;
    }
    if s.len() - k < 2 {
        return join2(byte_at(s, k), byte_at(s, k + 1));
    }
    join2(s[k], s[k + 1])
}

// The number of four bytes at place k, read in the same way.
pub fn four_at(s: &[u8], k: usize) -> u32
    ensures { result ≡ four k s.now }
{
    if s.len() <= k {
        return 0;
    }
    if s.len() - k < 4 {
        let d = byte_at(s, k + 3);
        let c = byte_at(s, k + 2);
        let b = byte_at(s, k + 1);
        return join4(byte_at(s, k), b, c, d);
    }
    join4(s[k], s[k + 1], s[k + 2], s[k + 3])
}

// The n bytes from place k on, or those of them that are there.
pub fn part_of<'a>(s: &'a [u8], k: usize, n: usize) -> &'a [u8]
    ensures { result.now ≡ part k n s.now }
{
    let rest = s.get(k..).unwrap_or(&[]);
    &rest[..n.min(rest.len())]
}

// The string of a record whose length byte stands at place k.
pub fn text_at<'a>(s: &'a [u8], k: usize) -> &'a [u8]
    ensures { result.now ≡ text_at k s.now }
{
    if s.len() <= k {
        return &s[0..0];
    }
    part_of(s, k + 1, size_at(s, k))
}

// The string of a call whose two length bytes stand at place k.
pub fn string_at<'a>(s: &'a [u8], k: usize) -> &'a [u8]
    ensures { result.now ≡ string_at k s.now }
{
    if s.len() <= k {
        return &s[0..0];
    }
    part_of(s, k + 2, two_at(s, k))
}

// The place behind that string. The place is a u32, so that the sum fits whatever the place is; the second promise is what a caller
// needs to go on from one string to the next: 65,537 bytes at most for each.
pub fn behind_at(s: &[u8], k: u32) -> usize
    ensures { (result ≡ behind k s.now) × (result ≤ k + 65537) }
{
    let at = k as usize;
    at + 2 + two_at(s, at)
}

// Whether a byte lies between lo and hi, both included.
pub fn is_within(b: u8, lo: u8, hi: u8) -> bool
    ensures { result ≡ within lo hi b }
{
    (lo <= b) & (b <= hi)
}

// Whether each byte does. It goes on past a byte that does not: without that branch 16 bytes are tested at a time.
pub fn all_within(s: &[u8], lo: u8, hi: u8) -> bool
    ensures { result ≡ all_within lo hi s.now }
{
    let mut ok = true;
    for b in s {
        ok &= is_within(*b, lo, hi);
    }
    ok
}

// Whether each byte is 0: then so are all of them joined by OR.
pub fn is_blank(s: &[u8]) -> bool
    ensures { result ≡ all_within 0 0 s.now }
{
    let mut seen = 0;
    for b in s {
        seen |= *b;
    }
    seen == 0
}

// Whether two slices hold the same bytes. It ends at the first difference, so it is for IDs and not for secrets.
pub fn same(a: &[u8], b: &[u8]) -> bool
    ensures { result ≡ same_bytes a.now b.now }
{
    a == b
}

// ---- records: `record_at` alone shows where one stands; every test is of one record, and a look-up goes from the first to the last

// Which records are meant: those of a kind; by kind, own handle and session; of these such as have a retry limit; by session; by
// kind and session; by kind, parent and session; a session's unstale pendings on a key; free places. A value
// and no closure: method_users keeps one in the step that a call comes to.
#[derive(Clone, Copy)]
pub enum Choice {
    Kind(u8),
    That(u8, u32, u32),
    Limited(u8, u32, u32),
    Bears(u32),
    Of(u8, u32),
    Child(u8, u32, u32),
    Held(u32, u32),
    Free,
}

// How many records the store has.
pub fn count(s: &[u8]) -> usize
    ensures { result ≡ length (records s.now) }
{
    s.len() / RECORD_BYTES
}

// The records from the first to the last, each a part of the store.
pub fn records<'a>(s: &'a [u8]) -> ChunksExact<'a, u8>
    ensures { Shows result s.now }
{
    s.chunks_exact(RECORD_BYTES)
}

// Record i as a part of the store.
pub fn record_at<'a>(s: &'a [u8], i: usize) -> &'a [u8]
    ensures { result.now ≡ get_or (records s.now) i [] }
{
    if s.len() / RECORD_BYTES <= i {
        return &s[0..0];
    }
    let a = RECORD_BYTES * i;
    let e = a + RECORD_BYTES;
    &s[a..e]
}

pub fn is_kind(r: &[u8], kind: u8) -> bool
    ensures { result ≡ test (chosen (Choice.Kind kind) r.now) }
{
    byte_at(r, KIND) == kind
}

pub fn is_that(r: &[u8], kind: u8, own: u32, session: u32) -> bool
    ensures { result ≡ test (is kind own session r.now) }
{
    if byte_at(r, KIND) != kind {
        return false;
    }
    if four_at(r, OWN) != own {
        return false;
    }
    four_at(r, HOME) == session
}

pub fn is_limited(r: &[u8], kind: u8, own: u32, session: u32) -> bool
    ensures { result ≡ test (chosen (Choice.Limited kind own session) r.now) }
{
    if !is_that(r, kind, own, session) {
        return false;
    }
    byte_at(r, RETRY_LIMIT) != 0
}

pub fn bears(r: &[u8], handle: u32) -> bool
    ensures { result ≡ test (bears_it handle r.now) }
{
    four_at(r, HOME) == handle
}

pub fn is_of(r: &[u8], sort: u8, session: u32) -> bool
    ensures { result ≡ test (chosen (Choice.Of sort session) r.now) }
{
    if !is_kind(r, sort) {
        return false;
    }
    bears(r, session)
}

pub fn is_child(r: &[u8], sort: u8, parent: u32, session: u32) -> bool
    ensures { result ≡ test (chosen (Choice.Child sort parent session) r.now) }
{
    if byte_at(r, KIND) != sort {
        return false;
    }
    if four_at(r, PARENT) != parent {
        return false;
    }
    four_at(r, HOME) == session
}

pub fn is_held(r: &[u8], session: u32, key: u32) -> bool
    ensures { result ≡ test (held session key r.now) }
{
    if byte_at(r, KIND) != PENDING {
        return false;
    }
    if four_at(r, HOME) != session {
        return false;
    }
    if byte_at(r, STALE) != 0 {
        return false;
    }
    four_at(r, PARENT) == key
}

pub fn is_free(r: &[u8]) -> bool
    ensures { result ≡ is_free r.now }
{
    if r.len() != RECORD_BYTES {
        return false;
    }
    if r[KIND] != FREE {
        return false;
    }
    is_blank(r)
}

pub fn is_chosen(r: &[u8], c: Choice) -> bool
    ensures { result ≡ test (chosen c r.now) }
{
    match c {
        Choice::Kind(kind) => is_kind(r, kind),
        Choice::That(kind, own, session) => is_that(r, kind, own, session),
        Choice::Limited(kind, own, session) => is_limited(r, kind, own, session),
        Choice::Bears(session) => bears(r, session),
        Choice::Of(sort, session) => is_of(r, sort, session),
        Choice::Child(sort, parent, session) => is_child(r, sort, parent, session),
        Choice::Held(session, key) => is_held(r, session, key),
        Choice::Free => is_free(r),
    }
}

// The place of the first record that is meant, or the number of records.
pub fn find(s: &[u8], c: Choice) -> usize
    ensures { result ≡ index (chosen c) (records s.now) }
{
    records(s).position(|r| is_chosen(r, c)).unwrap_or(count(s))
}

// Whether there is one.
pub fn has(s: &[u8], c: Choice) -> bool
    ensures { result ≡ test (some (records s.now) (chosen c)) }
{
    records(s).any(|r| is_chosen(r, c))
}

// That record itself, or the empty one.
pub fn first<'a>(s: &'a [u8], c: Choice) -> &'a [u8]
    ensures { result.now ≡ seek (chosen c) (records s.now) }
{
    record_at(s, find(s, c))
}

// ---- the key that a call names, its session, its policy and the policy's PUK, each a part of the store; whoever is not there is empty

// The handle of the session that a handle belongs to.
pub fn session_of(h: u32) -> u32
    ensures { result ≡ session_of h }
{
    h / HANDLE_STEP * HANDLE_STEP
}

// The record of this kind, own handle and session.
pub fn that<'a>(store: &'a [u8], kind: u8, own: u32, session: u32) -> &'a [u8]
    ensures { result.now ≡ at kind own session (records store.now) }
{
    first(store, Choice::That(kind, own, session))
}

// The key of this handle, and the session that it belongs to.
pub fn target<'a>(store: &'a [u8], k: u32) -> &'a [u8]
    ensures { result.now ≡ target_of k (records store.now) }
{
    that(store, KEY, k, session_of(k))
}

pub fn home<'a>(store: &'a [u8], k: u32) -> &'a [u8]
    ensures { result.now ≡ home_of k (records store.now) }
{
    let h = session_of(k);
    that(store, SESSION, h, h)
}

// Whether it is a key of a closed session.
pub fn is_target(store: &[u8], k: u32) -> bool
    ensures { result ≡ test (is_target k (records store.now)) }
{
    if byte_at(target(store, k), KIND) != KEY {
        return false;
    }
    byte_at(home(store, k), STATE) == CLOSED
}

// A key's policy, and a policy's PUK.
pub fn policy_of<'a>(store: &'a [u8], key: &[u8]) -> &'a [u8]
    ensures { result.now ≡ policy_of key.now (records store.now) }
{
    that(store, POLICY, four_at(key, PARENT), four_at(key, HOME))
}

pub fn puk_of<'a>(store: &'a [u8], policy: &[u8]) -> &'a [u8]
    ensures { result.now ≡ puk_of policy.now (records store.now) }
{
    that(store, PUK, four_at(policy, PARENT), four_at(policy, HOME))
}
