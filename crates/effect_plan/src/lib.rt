// What becomes of each record where keys are removed and unlocked, found by reading the store alone. A record goes where its last
// child goes, so every test is of one record against the store; what is found is a fate for each record, carried out elsewhere.
// Each set of keys is looked up once for all records, and its keys and the pendings on them are marked at their places. Most records
// have nothing to do with them: only those of a session that has a marked key are looked at closely.

#![tactic(auto)]

ghost use Rattle.std.specs.Prelude.{cond, ◌&&◌, ◌||◌, [], ◌≡◌, ◌≤◌, ◌<◌, eqb, length, get_or};
ghost use Rattle.paper.specs.Limits.{most_records};
ghost use Rattle.paper.specs.Form.{test, some};
ghost use Rattle.paper.specs.Records.{records, kind as kind_of, session as session_of, KEY};
ghost use Rattle.paper.specs.Bytes.{byte};
ghost use Rattle.paper.specs.Closing.{holds as held_by, lost, key_goes, policy_goes, puk_goes, session_goes, puk_unlocked, has_key, one};
ghost use Rattle.store_records.specs.Choices.{chosen};
ghost use Rattle.effect_plan.specs.Sets.{keys_of, holding, pending_of, Joined, mark, Marked, homes_of, Widened, Extended, AllHome, Told, ToldAt, Settled, Decided, home_of, under, key_so, policy_so, parent_goes};
ghost use Rattle.effect_plan.specs.Fate.{number_of, fate_of, fate, fitting, plan_of};

use paper::{
    CLOSED, HOME, KIND, MOST_RECORDS, OPERATION, OWN, PARENT, PENDING, POLICY, PUK, SESSION, STALE,
    STATE,
};
use store_records::{
    Choice, bears, byte_at, count, four_at, has, is_child, is_kind, record_at, records,
};

// What becomes of a record. Where keys are removed and unlocked it stays, is freed, the count of a key or of a PUK becomes 0, or a
// pending is marked stale; elsewhere a session is shut, or a key gets a new PIN, with its count 0 or as it is.
#[derive(Clone, Copy, PartialEq, Eq)]
pub enum Fate {
    Stays,
    Freed,
    KeyCleared,
    PukCleared,
    MadeStale,
    Shut,
    NewPin,
    NewPinCleared,
}

// A fate as a number, and a number as the fate that it stands for; by a number above 7 a record stays.
impl From<Fate> for u8 {
    ghost from_gives = { λ f n. n ≡ number_of f };

    fn from(f: Fate) -> u8 {
        match f {
            Fate::Stays => 0,
            Fate::Freed => 1,
            Fate::KeyCleared => 2,
            Fate::PukCleared => 3,
            Fate::MadeStale => 4,
            Fate::Shut => 5,
            Fate::NewPin => 6,
            Fate::NewPinCleared => 7,
        }
    }
}

impl From<u8> for Fate {
    ghost from_gives = { λ n f. f ≡ fate_of n };

    fn from(n: u8) -> Fate {
        match n {
            1 => Fate::Freed,
            2 => Fate::KeyCleared,
            3 => Fate::PukCleared,
            4 => Fate::MadeStale,
            5 => Fate::Shut,
            6 => Fate::NewPin,
            7 => Fate::NewPinCleared,
            _ => Fate::Stays,
        }
    }
}

// A set of keys: none; one, two or three handles; those on which a session has an unstale pending of an operation.
// `Nobody` is a set like the others, so no Option goes round them.
#[derive(Clone, Copy)]
pub enum Keys {
    Nobody,
    One(u32),
    Two(u32, u32),
    Three(u32, u32, u32),
    Held(u32, u8),
}

// Sessions by handle: none, up to three, or all.
#[derive(Clone, Copy)]
enum Homes {
    Nowhere,
    Few(u32, u32, u32),
    Everywhere,
}

// Whose keys are looked at: a policy's, by its handle and session, or a session's. A value and no closure: the definition `under` cites it.
#[derive(Clone, Copy)]
enum Under {
    Policy(u32, u32),
    Session(u32),
}

// What a policy is looked for by: it goes, it stays, or a key of it is unlocked. A value and no closure: the definitions `lot_of` and
// `policy_so` cite it.
#[derive(Clone, Copy)]
enum Lot {
    Gone,
    Kept,
    Unlocked,
}

// Whether it is an unstale pending of the session and the operation, on whatever key.
fn is_pending(q: &[u8], session: u32, op: u8) -> bool
    ensures { result ≡ test (pending_of session op q.now) }
{
    byte_at(q, KIND) == PENDING
        && four_at(q, HOME) == session
        && byte_at(q, STALE) == 0
        && byte_at(q, OPERATION) == op
}

fn is_holding(q: &[u8], session: u32, op: u8, key: u32) -> bool
    ensures { result ≡ test (holding session op key q.now) }
{
    is_pending(q, session, op) && key == four_at(q, PARENT)
}

// Whether a session has an unstale pending of the operation on the key.
fn holds(store: &[u8], session: u32, op: u8, key: u32) -> bool
    ensures { result ≡ held_by session op (records store.now) key }
{
    records(store).any(|q| is_holding(q, session, op, key))
}

fn is_any(key: u32, a: u32, b: u32, c: u32) -> bool
    ensures { result ≡ (one a key || one b key || one c key) }
{
    key == a || key == b || key == c
}

// Whether the set has the key.
fn is_in(store: &[u8], ks: Keys, key: u32) -> bool
    ensures { result ≡ keys_of ks (records store.now) key }
{
    match ks {
        Keys::Nobody => false,
        Keys::One(k) => key == k,
        Keys::Two(a, b) => key == a || key == b,
        Keys::Three(a, b, c) => is_any(key, a, b, c),
        Keys::Held(session, op) => holds(store, session, op, key),
    }
}

// The set and one key more; a set that is full becomes that of all keys held.
fn with_key(ks: Keys, key: u32, session: u32, op: u8) -> Keys
    ensures { Joined session op (one key) ks result }
{
    match ks {
        Keys::Nobody => Keys::One(key),
        Keys::One(a) => Keys::Two(a, key),
        Keys::Two(a, b) => Keys::Three(a, b, key),
        _ => Keys::Held(session, op),
    }
}

fn with_pending(ks: Keys, q: &[u8], session: u32, op: u8) -> Keys
    ensures { Joined session op (λ k. test (holding session op k q.now)) ks result }
{
    if !is_pending(q, session, op) {
        return ks;
    }
    with_key(ks, four_at(q, PARENT), session, op)
}

// The keys that a session holds with an operation, by their handles where they are few: then no one need look at the store for them.
pub fn held_keys(store: &[u8], session: u32, op: u8) -> Keys
    ensures { keys_of result (records store.now) ≡ held_by session op (records store.now) }
{
    let mut ks = Keys::Nobody;
    for q in records(store) {
        ks = with_pending(ks, q, session, op);
    }
    ks
}

// Whether the session has a key.
pub fn has_key(store: &[u8], session: u32) -> bool
    ensures { result ≡ test (has_key session (records store.now)) }
{
    has(store, Choice::Of(paper::KEY, session))
}

// The mark of a record: 1 for a key of the set and for a pending on such a key.
fn mark_of(store: &[u8], ks: Keys, r: &[u8]) -> u8
    ensures { result ≡ mark (keys_of ks (records store.now)) r.now }
{
    match byte_at(r, KIND) {
        paper::KEY => u8::from(is_in(store, ks, four_at(r, OWN))),
        PENDING => u8::from(is_in(store, ks, four_at(r, PARENT))),
        _ => 0,
    }
}

// The marks of all records. A byte each in a fixed table, and no heap. That a store has at most 256 records is asked by each function that fills
// one: a type of such stores would be opened again for every reader, which takes any slice.
fn marks_of(store: &[u8], ks: Keys, m: &mut [u8])
    requires { (length (records store.now) ≤ most_records) × (length m.old ≡ most_records) }
    ensures { Marked (keys_of ks (records store.now)) (records store.now) m.new }
{
    for i in 0..count(store) {
        m[i] = mark_of(store, ks, record_at(store, i));
    }
}

// Whether the session is among them.
fn is_home(hs: Homes, session: u32) -> bool
    ensures { result ≡ homes_of hs session }
{
    match hs {
        Homes::Nowhere => false,
        Homes::Few(a, b, c) => is_any(session, a, b, c),
        Homes::Everywhere => true,
    }
}

// The three sessions, of which some may be the same, and one more.
fn with_fourth(a: u32, b: u32, c: u32, session: u32) -> Homes
    ensures { Widened session (homes_of (Homes.Few a b c)) (homes_of result) }
{
    if a == b {
        return Homes::Few(session, b, c);
    }
    if b == c {
        return Homes::Few(a, session, c);
    }
    Homes::Everywhere
}

// The sessions found so far and one more.
fn with_home(hs: Homes, session: u32) -> Homes
    ensures { Widened session (homes_of hs) (homes_of result) }
{
    if is_home(hs, session) {
        return hs;
    }
    match hs {
        Homes::Nowhere => Homes::Few(session, session, session),
        Homes::Few(a, b, c) => with_fourth(a, b, c, session),
        Homes::Everywhere => Homes::Everywhere,
    }
}

// Whether the record at place i is a marked key: one that goes, or one that is unlocked.
fn is_key_at(store: &[u8], m: &[u8], i: usize) -> bool
    ensures { result ≡ (eqb (byte i m.now) 1 && eqb (kind_of (get_or (records store.now) i [])) KEY) }
{
    byte_at(m, i) == 1 && is_kind(record_at(store, i), paper::KEY)
}

// The sessions found so far, and that of the record at place i if it is a marked key.
fn with_home_at(store: &[u8], m: &[u8], hs: Homes, i: usize) -> Homes
    ensures { Extended (eqb (byte i m.now) 1 && eqb (kind_of (get_or (records store.now) i [])) KEY) (session_of (get_or (records store.now) i [])) (homes_of hs) (homes_of result) }
{
    if !is_key_at(store, m, i) {
        return hs;
    }
    with_home(hs, four_at(record_at(store, i), HOME))
}

// The sessions that have a marked key, or all where they are many.
fn homes_of(store: &[u8], m: &[u8]) -> Homes
    ensures { AllHome (records store.now) m.now result }
{
    let mut hs = Homes::Nowhere;
    for i in 0..count(store) {
        hs = with_home_at(store, m, hs, i);
    }
    hs
}

// Whether it is a child of this kind, parent and session. Few records bear the session, so that is looked at first.
fn is_child_of(x: &[u8], sort: u8, parent: u32, session: u32) -> bool
    ensures { result ≡ test (chosen (Choice.Child sort parent session) x.now) }
{
    bears(x, session) && is_child(x, sort, parent, session)
}

fn is_key_in(x: &[u8], session: u32) -> bool
    ensures { result ≡ test (chosen (Choice.Of KEY session) x.now) }
{
    bears(x, session) && is_kind(x, paper::KEY)
}

// Whether it is a key of the policy or of the session.
fn is_under(x: &[u8], u: Under) -> bool
    ensures { result ≡ test (under u x.now) }
{
    match u {
        Under::Policy(parent, session) => is_child_of(x, paper::KEY, parent, session),
        Under::Session(session) => is_key_in(x, session),
    }
}

// Whether the record at place i is such a key, and goes or stays.
fn is_key_so(store: &[u8], m: &[u8], u: Under, gone: bool, i: usize) -> bool
    ensures { Told (records store.now) m.now result (λ d. key_so d (records store.now) u gone (get_or (records store.now) i [])) }
{
    is_under(record_at(store, i), u) && is_key_at(store, m, i) == gone
}

// Whether some such key goes, or stays.
fn some_key(store: &[u8], m: &[u8], u: Under, gone: bool) -> bool
    ensures { Told (records store.now) m.now result (λ d. some (records store.now) (key_so d (records store.now) u gone)) }
{
    (0..count(store)).any(|i| is_key_so(store, m, u, gone, i))
}

// Whether there were such keys, and all of them go. As a rule one stays, and it is soon found.
fn keys_lost(store: &[u8], m: &[u8], u: Under) -> bool
    ensures { Told (records store.now) m.now result (λ d. lost (records store.now) (under u) (key_goes d (records store.now))) }
{
    !some_key(store, m, u, false) && some_key(store, m, u, true)
}

// Whether the record is a policy left without child.
fn policy_goes(store: &[u8], m: &[u8], r: &[u8]) -> bool
    ensures { Told (records store.now) m.now result (λ d. policy_goes d (records store.now) r.now) }
{
    is_kind(r, POLICY) && keys_lost(store, m, Under::Policy(four_at(r, OWN), four_at(r, HOME)))
}

// Whether it is a closed session left without key.
fn session_goes(store: &[u8], m: &[u8], r: &[u8]) -> bool
    ensures { Told (records store.now) m.now result (λ d. session_goes d (records store.now) r.now) }
{
    is_kind(r, SESSION)
        && byte_at(r, STATE) == CLOSED
        && keys_lost(store, m, Under::Session(four_at(r, OWN)))
}

fn is_policy_so(store: &[u8], m: &[u8], own: u32, session: u32, l: Lot, p: &[u8]) -> bool
    ensures { Told (records store.now) m.now result (λ d. policy_so d (records store.now) own session l p.now) }
{
    if !is_child_of(p, POLICY, own, session) {
        return false;
    }
    match l {
        Lot::Gone => policy_goes(store, m, p),
        Lot::Kept => !policy_goes(store, m, p),
        Lot::Unlocked => some_key(store, m, Under::Policy(four_at(p, OWN), session), true),
    }
}

// Whether some such policy is under the PUK of this handle and session.
fn some_policy(store: &[u8], m: &[u8], own: u32, session: u32, l: Lot) -> bool
    ensures { Told (records store.now) m.now result (λ d. some (records store.now) (policy_so d (records store.now) own session l)) }
{
    records(store).any(|p| is_policy_so(store, m, own, session, l, p))
}

// Whether the record is a PUK left without child. As a rule a policy stays, and it is soon found.
fn puk_goes(store: &[u8], m: &[u8], r: &[u8]) -> bool
    ensures { Told (records store.now) m.now result (λ d. puk_goes d (records store.now) r.now) }
{
    if !is_kind(r, PUK) {
        return false;
    }
    let own = four_at(r, OWN);
    let session = four_at(r, HOME);
    !some_policy(store, m, own, session, Lot::Kept)
        && some_policy(store, m, own, session, Lot::Gone)
}

// Whether it is the PUK of a key that is unlocked.
fn puk_unlocked(store: &[u8], m: &[u8], r: &[u8]) -> bool
    ensures { Told (records store.now) m.now result (λ d. puk_unlocked d (records store.now) r.now) }
{
    is_kind(r, PUK) && some_policy(store, m, four_at(r, OWN), four_at(r, HOME), Lot::Unlocked)
}

// Whether the record is a parent that goes along with the marked keys.
fn goes_along(store: &[u8], m: &[u8], r: &[u8]) -> bool
    ensures { Told (records store.now) m.now result (λ d. parent_goes d (records store.now) r.now) }
{
    policy_goes(store, m, r) || puk_goes(store, m, r) || session_goes(store, m, r)
}

// The session that the keys under a record bear.
fn home_of(r: &[u8]) -> u32
    ensures { result ≡ home_of r.now }
{
    if is_kind(r, SESSION) {
        return four_at(r, OWN);
    }
    four_at(r, HOME)
}

// The same two questions of any record; the answer is no where no marked key is at home.
fn goes_near(store: &[u8], m: &[u8], hs: Homes, r: &[u8]) -> bool
    ensures { ToldAt (records store.now) m.now hs result (λ d. parent_goes d (records store.now) r.now) }
{
    is_home(hs, home_of(r)) && goes_along(store, m, r)
}

fn unlocked_near(store: &[u8], m: &[u8], hs: Homes, r: &[u8]) -> bool
    ensures { ToldAt (records store.now) m.now hs result (λ d. puk_unlocked d (records store.now) r.now) }
{
    is_home(hs, four_at(r, HOME)) && puk_unlocked(store, m, r)
}

// What becomes of a key with these marks: a is that of the keys to be removed, b that of those to be unlocked.
fn key_fate(a: u8, b: u8) -> Fate
    ensures { result ≡ cond (eqb a 1) Fate.Freed (cond (eqb b 1) Fate.KeyCleared Fate.Stays) }
{
    if a == 1 {
        return Fate::Freed;
    }
    if b == 1 {
        return Fate::KeyCleared;
    }
    Fate::Stays
}

// What becomes of a pending with these marks.
fn pending_fate(a: u8, b: u8) -> Fate
    ensures { result ≡ cond (eqb a 1 || eqb b 1) Fate.MadeStale Fate.Stays }
{
    if a == 1 || b == 1 {
        return Fate::MadeStale;
    }
    Fate::Stays
}

// What becomes of any other record.
fn parent_fate(store: &[u8], md: &[u8], mu: &[u8], hd: Homes, hu: Homes, r: &[u8]) -> Fate
    ensures { Settled (records store.now) md.now mu.now hd hu result (λ d u. cond (test (parent_goes d (records store.now) r.now)) Fate.Freed (cond (test (puk_unlocked u (records store.now) r.now)) Fate.PukCleared Fate.Stays)) }
{
    if goes_near(store, md, hd, r) {
        return Fate::Freed;
    }
    if unlocked_near(store, mu, hu, r) {
        return Fate::PukCleared;
    }
    Fate::Stays
}

// What becomes of the record at place i.
fn fate_at(store: &[u8], md: &[u8], mu: &[u8], hd: Homes, hu: Homes, i: usize) -> Fate
    ensures { i < length (records store.now) → Settled (records store.now) md.now mu.now hd hu result (λ d u. fate d u (records store.now) (get_or (records store.now) i [])) }
{
    let r = record_at(store, i);
    match byte_at(r, KIND) {
        paper::KEY => key_fate(byte_at(md, i), byte_at(mu, i)),
        PENDING => pending_fate(byte_at(md, i), byte_at(mu, i)),
        _ => parent_fate(store, md, mu, hd, hu, r),
    }
}

fn plan_marked(store: &[u8], md: &[u8], mu: &[u8]) -> [Fate; 256]
    requires { length (records store.now) ≤ most_records }
    ensures { Decided (records store.now) md.now mu.now result }
{
    let hd = homes_of(store, md);
    let hu = homes_of(store, mu);
    let mut p = [Fate::Stays; 256];
    for i in 0..count(store) {
        p[i] = fate_at(store, md, mu, hd, hu, i);
    }
    p
}

// What becomes of every record where the keys of ds are removed and those of us unlocked. A plan has room for 256 records: of a
// longer store all stay.
pub fn plan_of(store: &[u8], ds: Keys, us: Keys) -> [Fate; 256]
    ensures { result ≡ plan_of (fitting (records store.now) (fate (keys_of ds (records store.now)) (keys_of us (records store.now)) (records store.now))) (records store.now) }
{
    if MOST_RECORDS < count(store) {
        return [Fate::Stays; 256];
    }
    let mut md = [0u8; 256];
    marks_of(store, ds, &mut md);
    let mut mu = [0u8; 256];
    marks_of(store, us, &mut mu);
    plan_marked(store, &md, &mu)
}
