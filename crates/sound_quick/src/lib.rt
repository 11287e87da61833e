// Soundness the quick way. A yes is proved to be one; a no says nothing, and the exact test decides.

#![tactic(auto)]

ghost use Rattle.std.specs.Prelude.{◌≡◌, false, map, ◌/◌, ◌≤◌, length};
ghost use Rattle.paper.specs.Limits.{record_bytes, most_records};
ghost use Rattle.paper.specs.Records.{records};
ghost use Rattle.sound_quick.specs.Marks.{mixed, handle_mark, pending_mark, name_mark, mark_of, occurs, repeated, differing, column, marks_differ};
ghost use Rattle.paper.specs.Form.{test};
ghost use Rattle.sound_quick.specs.Near.{key_near, session_near, object_near, child_near, pin_near, puk_near, policy_near, target_near, near};

use hmac::is_same;
use paper::{
    CLIENT_ID, COUNTER, GROUPING, HOME, ID, ID_WIDTH, KEY, KIND, MOST_RECORDS, OWN, PARENT,
    PENDING, PIN_WIDTH, POLICY, PUK, SESSION, SHARED, VALUE,
};
use sound_pairs::{has_handle, is_closed, is_object, is_related};
use store_records::{
    byte_at, count, four_at, is_child, is_kind, is_of, is_that, part_of, record_at, session_of,
};

// ---- marks: each record gets a number, and where no number occurs twice the records are distinct in the paper's sense
// (proofs/Apart.antt). A number is compared with those behind it only where one of them fell into the same bucket, by a loop without
// early exit, which is compiled to vector instructions.

const BUCKETS: u32 = 1021;

const PRIME: u64 = 4294967291;

// No other mark is above that prime.
const COUNTER_MARK: u32 = 4294967295;

// Whether x occurs in c.
fn has_twin(c: &[u32], x: u32) -> bool
    ensures { result ≡ occurs x c.now }
{
    let mut hit = false;
    for y in c {
        hit |= *y == x;
    }
    hit
}

// The same of a mark: 0 says nothing. Where the mark's bucket was not seen there is nothing to compare.
fn is_repeated(c: &[u32], x: u32, seen: bool) -> bool
    requires { seen ≡ false → occurs x c.now ≡ false }
    ensures { result ≡ repeated x c.now }
{
    x != 0 && seen && has_twin(c, x)
}

// Whether no mark of c occurs twice. From the last mark to the first: a mark is compared with those behind it only where one of them
// fell into the same of 1021 buckets.
pub fn differ(c: &[u32]) -> bool
    ensures { result ≡ differing c.now }
{
    let mut seen = [false; 1021];
    for i in (0..c.len()).rev() {
        let x = c[i];
        let b = (x % BUCKETS) as usize;
        if is_repeated(&c[i + 1..], x, seen[b]) {
            return false;
        }
        seen[b] = true;
    }
    true
}

// Two numbers and a string as one number. Each product is below 2^59, and there are eleven.
fn mix(a: u32, b: u32, p: &[u8]) -> u32
    ensures { result ≡ mixed a b p.now }
{
    let m = u64::from(a) * 104395301
        + u64::from(b) * 122949823
        + u64::from(four_at(p, 0)) * 86028121
        + u64::from(four_at(p, 4)) * 67867967
        + u64::from(four_at(p, 8)) * 49979687
        + u64::from(four_at(p, 12)) * 32452843
        + u64::from(four_at(p, 16)) * 15485863
        + u64::from(four_at(p, 20)) * 113648711
        + u64::from(four_at(p, 24)) * 95189713
        + u64::from(four_at(p, 28)) * 77557187
        + u64::from(byte_at(p, 32)) * 58600471;
    (m % PRIME + 1) as u32
}

fn handle_mark(r: &[u8]) -> u32
    ensures { result ≡ handle_mark r.now }
{
    if has_handle(r) {
        return four_at(r, OWN);
    }
    0
}

fn name_mark(r: &[u8]) -> u32
    ensures { result ≡ name_mark r.now }
{
    match byte_at(r, KIND) {
        SESSION => mix(0, 0, part_of(r, CLIENT_ID, ID_WIDTH)),
        PUK | POLICY | KEY => mix(four_at(r, HOME), 0, part_of(r, ID, ID_WIDTH)),
        PENDING => pending_mark(r),
        COUNTER => COUNTER_MARK,
        _ => 0,
    }
}

// That of a pending: its session and its target, if it has one.
fn pending_mark(r: &[u8]) -> u32
    ensures { result ≡ pending_mark r.now }
{
    let target = four_at(r, PARENT);
    if target == 0 {
        return 0;
    }
    mix(four_at(r, HOME), target, part_of(r, 0, 0))
}

// A record's mark: what names it, or its handle.
pub fn mark_of(r: &[u8], named: bool) -> u32
    ensures { result ≡ mark_of named r.now }
{
    if named {
        return name_mark(r);
    }
    handle_mark(r)
}

// A store's column of marks: those of its records, as far as there is room, then zeros.
pub fn marks(s: &[u8], named: bool) -> [u32; 256]
    ensures { result ≡ column named (records s.now) }
{
    let mut p = [0u32; 256];
    for i in 0..count(s).min(MOST_RECORDS) {
        p[i] = mark_of(record_at(s, i), named);
    }
    p
}

// Whether no mark of a column occurs twice.
fn column_differs(s: &[u8], named: bool) -> bool
    requires { length s.now / record_bytes ≤ most_records }
    ensures { result ≡ differing (map (mark_of named) (records s.now)) }
{
    let c = marks(s, named);
    differ(&c[..count(s)])
}

// Whether all marks of a store differ. One column at a time: a kilobyte of stack.
pub fn marks_differ(s: &[u8]) -> bool
    ensures { result ≡ marks_differ (records s.now) }
{
    if MOST_RECORDS < count(s) {
        return false;
    }
    if !column_differs(s, false) {
        return false;
    }
    column_differs(s, true)
}

// ---- neighbours: whether a record stands to those that are shown as in a sound store. Whoever shows the wrong ones only gets a no: the
// test asks first that they are who they should be.

// A closed session has the key that is shown.
fn key_near(k: &[u8], y: &[u8]) -> bool
    ensures { result ≡ test (key_near k.now y.now) }
{
    if !is_closed(y) {
        return true;
    }
    is_of(k, KEY, four_at(y, OWN))
}

fn session_near(c: &[u8], k: &[u8], y: &[u8]) -> bool
    ensures { result ≡ test (session_near c.now k.now y.now) }
{
    if byte_at(y, KIND) != SESSION {
        return true;
    }
    is_kind(c, COUNTER) & (is_related(c, y) & key_near(k, y))
}

fn object_near(x: &[u8], y: &[u8]) -> bool
    ensures { result ≡ test (object_near x.now y.now) }
{
    if !is_object(y) {
        return true;
    }
    let h = four_at(y, HOME);
    is_that(x, SESSION, h, h) & is_related(x, y)
}

fn child_near(x: &[u8], k: &[u8], y: &[u8], sort: u8, below: u8) -> bool
    ensures { result ≡ test (child_near x.now k.now y.now sort below) }
{
    if byte_at(y, KIND) != sort {
        return true;
    }
    if !is_closed(x) {
        return true;
    }
    is_child(k, below, four_at(y, OWN), four_at(y, HOME))
}

fn puk_near(p: &[u8], y: &[u8]) -> bool
    ensures { result ≡ test (puk_near p.now y.now) }
{
    if byte_at(y, KIND) != POLICY {
        return true;
    }
    let o = four_at(y, PARENT);
    if o == 0 {
        return true;
    }
    is_that(p, PUK, o, four_at(y, HOME))
}

// Under a shared policy the key has the PIN of the one that is shown.
fn pin_near(p: &[u8], q: &[u8], y: &[u8]) -> bool
    ensures { result ≡ test (pin_near p.now q.now y.now) }
{
    if byte_at(p, GROUPING) != SHARED {
        return true;
    }
    is_same(part_of(q, VALUE, PIN_WIDTH), part_of(y, VALUE, PIN_WIDTH))
}

fn policy_near(p: &[u8], q: &[u8], y: &[u8]) -> bool
    ensures { result ≡ test (policy_near p.now q.now y.now) }
{
    if byte_at(y, KIND) != KEY {
        return true;
    }
    let o = four_at(y, PARENT);
    if o == 0 {
        return true;
    }
    is_that(p, POLICY, o, four_at(y, HOME)) & (is_related(p, y) & pin_near(p, q, y))
}

fn target_near(p: &[u8], t: &[u8], y: &[u8]) -> bool
    ensures { result ≡ test (target_near p.now t.now y.now) }
{
    if byte_at(y, KIND) != PENDING {
        return true;
    }
    let o = four_at(y, PARENT);
    if o == 0 {
        return true;
    }
    let h = session_of(o);
    is_that(p, KEY, o, h) & (is_related(p, y) & (is_that(t, SESSION, h, h) & is_related(t, y)))
}

// The records that a record is shown: the counter, its session, its parent or target, the target's session, its child, and a key under
// the same policy.
#[derive(Clone, Copy)]
pub struct Neighbours<'a> {
    pub counter: &'a [u8],
    pub session: &'a [u8],
    pub parent: &'a [u8],
    pub home: &'a [u8],
    pub child: &'a [u8],
    pub fellow: &'a [u8],
}

// Whether the record y stands to those as it should.
pub fn is_near(n: Neighbours<'_>, y: &[u8]) -> bool
    ensures { result ≡ test (near n.entry.counter.now n.entry.session.now n.entry.parent.now n.entry.home.now n.entry.child.now n.entry.fellow.now y.now) }
{
    let policy = policy_near(n.parent, n.fellow, y);
    let above = puk_near(n.parent, y) & (policy & target_near(n.parent, n.home, y));
    let under_policy = child_near(n.session, n.child, y, POLICY, KEY);
    let below = child_near(n.session, n.child, y, PUK, POLICY) & (under_policy & above);
    session_near(n.counter, n.child, y) & (object_near(n.session, y) & below)
}
