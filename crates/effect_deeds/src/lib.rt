// What a removal, an unlocking, a close and a change of PIN make of every record, in one shot. First a plan is made by reading the
// store alone, one fate a record; then it is carried out, and nothing is read but the record at hand. So no record is judged by what
// the same call has already written.

#![tactic(auto)]

ghost use Rattle.std.specs.Prelude.{◌≡◌, [], map, ℕ, ◌≤◌, get_or, set, length};
ghost use Rattle.paper.specs.Bytes.{over};
ghost use Rattle.paper.specs.Form.{test, some};
ghost use Rattle.paper.specs.Records.{records};
ghost use Rattle.paper.specs.Pin.{clear as cleared};
ghost use Rattle.paper.specs.Closing.{stale as staled, shut as closed, effect, closing};
ghost use Rattle.paper.specs.Users.{new_pin};
ghost use Rattle.store_records.specs.View.{Becomes};
ghost use Rattle.effect_plan.specs.Sets.{keys_of};
ghost use Rattle.effect_plan.specs.declared.Fate.{Fate};
ghost use Rattle.effect_plan.specs.Fate.{fate_of, Plan, planned};
ghost use Rattle.effect_deeds.specs.Deeds.{done, each_at, dealt};
ghost use Rattle.effect_deeds.specs.Outcome.{close_fate, given, given_as, repinned, Widened, Spans, pin_fate, deed_fate, outcome, unless_long};

use effect_plan::{Fate, Keys, has_key, held_keys, plan_of};
use paper::{
    CLOSED, DELETES, KEY, KEY_ERRORS, MAC_COUNTER, MOST_RECORDS, OWN, PARENT, PENDING, PUK_ERRORS,
    RECORD_BYTES, SESSION, SESSION_KEY, STALE, STATE, UNLOCKS, VALUE,
};
use store_edits::{copy_of, put};
use store_records::{
    bears, byte_at, count, four_at, is_child, is_kind, is_that, record_at, records, two_at,
};

// ---- a plan carried out: a record is changed by value and put back. A plan may be of any length: past its end records stay

// The bytes b written over those from place k on; what would stand past byte 256 is left out.
fn with_bytes(mut r: [u8; 256], k: usize, b: &[u8]) -> [u8; 256]
    ensures { result ≡ over k b.now r }
{
    let from = k.min(RECORD_BYTES);
    let n = b.len().min(RECORD_BYTES - from);
    r[from..from + n].copy_from_slice(&b[..n]);
    r
}

// The count at byte k becomes 0.
fn clear(r: [u8; 256], k: usize) -> [u8; 256]
    ensures { result ≡ cleared k r }
{
    with_bytes(r, k, &[0])
}

// A pending loses its target and is marked.
fn stale(r: [u8; 256]) -> [u8; 256]
    ensures { result ≡ staled r }
{
    with_bytes(with_bytes(r, PARENT, &[0; 4]), STALE, &[1])
}

// A session is closed: the MAC counter counts the close's two uses, and the SessionKey is zeroed.
fn shut(r: [u8; 256]) -> [u8; 256]
    ensures { result ≡ closed r }
{
    let n = (two_at(&r, MAC_COUNTER) as u16).wrapping_add(2);
    let r = with_bytes(r, MAC_COUNTER, &n.to_be_bytes());
    let r = with_bytes(r, SESSION_KEY, &[0; 32]);
    with_bytes(r, STATE, &[CLOSED])
}

// A key gets the PIN v: its length, zeros, and then its bytes over them.
fn with_pin(r: [u8; 256], v: &[u8]) -> [u8; 256]
    ensures { result ≡ new_pin v.now r }
{
    let r = with_bytes(r, VALUE, &[(v.len() % 256) as u8]);
    let r = with_bytes(r, VALUE + 1, &[0; 16]);
    with_bytes(r, VALUE + 1, v)
}

fn turned(r: [u8; 256], f: Fate, v: &[u8]) -> [u8; 256]
    ensures { result ≡ done v.now f r }
{
    match f {
        Fate::Stays => r,
        Fate::Freed => [0u8; 256],
        Fate::KeyCleared => clear(r, KEY_ERRORS),
        Fate::PukCleared => clear(r, PUK_ERRORS),
        Fate::MadeStale => stale(r),
        Fate::Shut => shut(r),
        Fate::NewPin => with_pin(r, v),
        Fate::NewPinCleared => clear(with_pin(r, v), KEY_ERRORS),
    }
}

// Record i becomes what its fate says. Most stay, and are not touched.
fn turn_at(s: &mut [u8], i: usize, f: Fate, v: &[u8])
    ensures { Becomes (set (records s.old) i (done v.now f (get_or (records s.old) i []))) s.old s.new }
{
    if f == Fate::Stays {
        return;
    }
    let r = turned(copy_of(s, i), f, v);
    put(s, i, &r);
}

// A plan says of the record at each place what becomes of it; past its end records stay. Both kinds go through one loop, `deal_by`.
trait Fates: Copy {
    ghost says: { Self → ℕ → Fate };

    fn fate_at(self, i: usize) -> Fate
        ensures { result ≡ says self i };
}

impl Fates for &[Fate] {
    ghost says = { λ p i. planned i p.now };

    fn fate_at(self, i: usize) -> Fate {
        self.get(i).copied().unwrap_or(Fate::Stays)
    }
}

// Numbers, each of which stands for a fate.
impl Fates for &[u8] {
    ghost says = { λ p i. planned i (map fate_of p.now) };

    #[tactic(auto, using(crate::proofs::Turns::numbers_planned))]
    fn fate_at(self, i: usize) -> Fate {
        Fate::from(byte_at(self, i))
    }
}

// Every record becomes what the plan says of it; v is the new PIN of those that get one.
fn deal_by<P: Fates>(s: &mut [u8], p: P, v: &[u8])
    ensures { Becomes (each_at (λ i. done v.now (P.says p i)) 0 (records s.old)) s.old s.new }
{
    for i in 0..count(s) {
        turn_at(s, i, p.fate_at(i), v);
    }
}

// The same by a plan of numbers.
#[tactic(auto, unfolding(crate::specs::Deeds::dealt))]
pub fn deal(s: &mut [u8], p: &[u8], v: &[u8])
    ensures { Becomes (dealt v.now (map fate_of p.now) (records s.old)) s.old s.new }
{
    deal_by(s, p, v);
}

// ---- the plans of the three deeds

// Who gets a new PIN: the key of this handle and session; if its policy's keys share one PIN, all keys of that policy.
#[derive(Clone, Copy)]
pub struct Pinned {
    pub key: u32,
    pub home: u32,
    pub policy: u32,
    pub shared: bool,
}

// What is done: keys removed and keys unlocked, a session closed, a key's PIN changed.
#[derive(Clone, Copy)]
pub enum Deed {
    Effect(Keys, Keys),
    Close(u32),
    Change(Pinned),
}

// Handles from low to high. What they span depends on a store beside them, so it is said in promises (`Spans`) and is no invariant.
#[derive(Clone, Copy)]
struct Span {
    low: u32,
    high: u32,
}

// What becomes of a record when session t is closed; f is what becomes of it if it is not the session's.
fn close_fate(store: &[u8], t: u32, f: Fate, r: &[u8]) -> Fate
    ensures { result ≡ close_fate t f (records store.now) r.now }
{
    if !bears(r, t) {
        return f;
    }
    if is_kind(r, PENDING) {
        return Fate::Freed;
    }
    if !is_kind(r, SESSION) {
        return Fate::Stays;
    }
    if has_key(store, t) {
        return Fate::Shut;
    }
    Fate::Freed
}

fn is_given(g: Pinned, r: &[u8]) -> bool
    ensures { result ≡ test (given g r.now) }
{
    is_that(r, KEY, g.key, g.home) || g.shared && is_child(r, KEY, g.policy, g.home)
}

fn is_given_as(g: Pinned, key: u32, y: &[u8]) -> bool
    ensures { result ≡ test (given_as g key y.now) }
{
    four_at(y, OWN) == key && is_given(g, y)
}

// Whether the key of this handle gets the PIN.
fn some_given(store: &[u8], g: Pinned, key: u32) -> bool
    ensures { result ≡ test (some (records store.now) (given_as g key)) }
{
    records(store).any(|y| is_given_as(g, key, y))
}

// The span made wide enough for a record that gets the PIN.
fn widened(s: Span, g: Pinned, r: &[u8]) -> Span
    ensures { Widened g r.now s result }
{
    if !is_given(g, r) {
        return s;
    }
    let own = four_at(r, OWN);
    Span {
        low: s.low.min(own),
        high: s.high.max(own),
    }
}

// All that get the PIN have handles in this span. Most pendings are on none of them, and need no look at the store.
fn span_of(store: &[u8], g: Pinned) -> Span
    ensures { Spans g (records store.now) result }
{
    let mut s = Span {
        low: u32::MAX,
        high: 0,
    };
    for r in records(store) {
        s = widened(s, g, r);
    }
    s
}

// Whether the key of this handle gets the PIN.
fn is_taken(store: &[u8], g: Pinned, s: Span, key: u32) -> bool
    ensures { Spans g (records store.now) s → result ≡ test (some (records store.now) (given_as g key)) }
{
    if key < s.low || s.high < key {
        return false;
    }
    some_given(store, g, key)
}

fn pin_fate(store: &[u8], g: Pinned, s: Span, r: &[u8]) -> Fate
    ensures { Spans g (records store.now) s → result ≡ pin_fate g (records store.now) r.now }
{
    if is_given(g, r) {
        if is_that(r, KEY, g.key, g.home) {
            return Fate::NewPinCleared;
        }
        return Fate::NewPin;
    }
    if !is_kind(r, PENDING) {
        return Fate::Stays;
    }
    if is_taken(store, g, s, four_at(r, PARENT)) {
        return Fate::MadeStale;
    }
    Fate::Stays
}

// The keys that the session holds are looked up once for all records, and what they make of its own is written over. A plan has room for 256
// records, which these three ask for: effect_plan says why that is in no type.
fn plan_close(store: &[u8], t: u32) -> [Fate; 256]
    requires { length (records store.now) ≤ 256 }
    ensures { Plan (deed_fate (Deed.Close t) (records store.now)) (records store.now) result }
{
    let mut p = plan_of(
        store,
        held_keys(store, t, DELETES),
        held_keys(store, t, UNLOCKS),
    );
    for i in 0..count(store) {
        p[i] = close_fate(store, t, p[i], record_at(store, i));
    }
    p
}

// The span is found once for all records.
fn plan_pins(store: &[u8], g: Pinned) -> [Fate; 256]
    requires { length (records store.now) ≤ 256 }
    ensures { Plan (pin_fate g (records store.now)) (records store.now) result }
{
    let s = span_of(store, g);
    let mut p = [Fate::Stays; 256];
    for i in 0..count(store) {
        p[i] = pin_fate(store, g, s, record_at(store, i));
    }
    p
}

fn plan(store: &[u8], d: Deed) -> [Fate; 256]
    requires { length (records store.now) ≤ 256 }
    ensures { Plan (deed_fate d (records store.now)) (records store.now) result }
{
    match d {
        Deed::Effect(ds, us) => plan_of(store, ds, us),
        Deed::Close(t) => plan_close(store, t),
        Deed::Change(g) => plan_pins(store, g),
    }
}

// The deed is done to every record; v is the new PIN, where one is given.
fn enact(store: &mut [u8], d: Deed, v: &[u8])
    ensures { Becomes (unless_long (records store.old) (map (outcome v.now d (records store.old)) (records store.old))) store.old store.new }
{
    if MOST_RECORDS < count(store) {
        return;
    }
    let p = plan(store, d);
    deal_by(store, &p[..], v);
}

// The keys of ds are removed and those of us unlocked.
pub fn carry(store: &mut [u8], ds: Keys, us: Keys)
    ensures { Becomes (unless_long (records store.old) (map (effect (keys_of ds (records store.old)) (keys_of us (records store.old)) (records store.old)) (records store.old))) store.old store.new }
{
    let none = [0u8; 1];
    enact(store, Deed::Effect(ds, us), &none);
}

// Session t is closed, and what it holds is carried out.
pub fn close(store: &mut [u8], t: u32)
    ensures { Becomes (unless_long (records store.old) (map (closing t (records store.old)) (records store.old))) store.old store.new }
{
    let none = [0u8; 1];
    enact(store, Deed::Close(t), &none);
}

// Those of g get the PIN v; the count of the key itself becomes 0.
pub fn change_pin(store: &mut [u8], g: Pinned, v: &[u8])
    ensures { Becomes (unless_long (records store.old) (map (repinned g v.now (records store.old)) (records store.old))) store.old store.new }
{
    enact(store, Deed::Change(g), v);
}
