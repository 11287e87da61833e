// What the methods share: the order of refusals as code, rung by rung, and what a call comes to, done to the store. A function that
// refuses asks one test after the other and stops at the first that holds, so that the code reads as the paper's list does. The meaning
// is that of the paper's Act.

#![tactic(auto)]

ghost use Rattle.std.specs.Prelude.{◌≡◌, true, false, ◌&&◌, ◌||◌, [], map, ◌≤◌, get_or, set, MatchResult};
ghost use Rattle.paper.specs.Refusal.{number};
ghost use Rattle.method_acts.specs.Rungs.{number_of, status};
ghost use Rattle.method_acts.specs.Answers.{bare_reply, Answers};
ghost use Rattle.std.proofs.Math.Option.{some as just};
ghost use Rattle.paper.specs.Bytes.{enc2, over};
ghost use Rattle.paper.specs.Form.{test};
ghost use Rattle.paper.specs.Records.{records, block};
ghost use Rattle.paper.specs.Act.{perform, moved as moved_on, advance as advanced, passes_limit, objects_used_up, fresh as fresh_handle};
ghost use Rattle.paper.specs.Objects.{taken, not_there, sealed_by};
ghost use Rattle.store_records.specs.View.{Becomes};
ghost use Rattle.store_session.specs.Decoded.{value_of};
ghost use Rattle.method_acts.specs.Names.{named};
ghost use Rattle.paper.specs.Act as act;

use paper::{MAC_COUNTER, MOST_OBJECTS, NEXT_OBJECT, Refusal};
use store_edits::{Rewrite, rewrite_chosen};
use store_records::{Choice, bears, byte_at, is_within, records, text_at, two_at};
use store_session::Session;

// ---- refusals and replies

// A handle has more than 32 bits here, so that a sum of handles is never cut; the reply takes its low four bytes.
#[derive(Clone, Copy)]
pub struct Reply {
    pub status: u8,
    pub handle: u64,
    pub attestation: [u8; 32],
}

// A status with nothing in the reply but itself.
pub fn bare(n: u8) -> Reply
    ensures { result ≡ bare_reply n }
{
    Reply {
        status: n,
        handle: 0,
        attestation: [0u8; 32],
    }
}

// A refusal with nothing in the reply but its number.
pub fn refused(e: Refusal) -> Reply
    ensures { result ≡ bare_reply (number e) }
{
    bare(u8::from(e))
}

// The refusal e where something is wrong.
pub fn refuse_if(wrong: bool, e: Refusal) -> Result<(), Refusal>
    ensures { MatchResult result (λ u. wrong ≡ false) (λ f. (f ≡ e) × (wrong ≡ true)) }
{
    if wrong {
        return Err(e);
    }
    Ok(())
}

// Two tests joined. Both are made, whatever the first says.
pub fn both(a: bool, b: bool) -> bool
    ensures { result ≡ (a && b) }
{
    a & b
}

pub fn either(a: bool, b: bool) -> bool
    ensures { result ≡ (a || b) }
{
    a | b
}

// ---- a session's records, and what a call comes to: it is refused and its session freed, or the session's counters move on and a new
// record takes the lowest free place

// The next object's handle.
pub fn fresh(t: u32, x: Session) -> u64
    ensures { result ≡ fresh_handle t (value_of x) }
{
    u64::from(t) + u64::from(x.next)
}

// Whether so many uses of the MAC counter would pass the limit, and whether object numbers are used up.
pub fn passes_limit(x: Session, used: u8) -> bool
    ensures { result ≡ test (passes_limit used (value_of x)) }
{
    let n = u32::from(x.counter) + u32::from(used);
    !(n <= u32::from(x.limit))
}

pub fn is_used_up(x: Session) -> bool
    ensures { result ≡ test (objects_used_up (value_of x)) }
{
    !(usize::from(x.next) <= MOST_OBJECTS)
}

// Whether an ID is taken: by a PUK, a PIN policy or a key of the session.
fn is_named(r: &[u8], t: u32, name: &[u8]) -> bool
    ensures { result ≡ test (named t name.now r.now) }
{
    if !bears(r, t) {
        return false;
    }
    if !is_within(byte_at(r, paper::KIND), paper::PUK, paper::KEY) {
        return false;
    }
    store_records::same(text_at(r, paper::ID), name)
}

pub fn is_taken(s: &[u8], t: u32, name: &[u8]) -> bool
    ensures { result ≡ test (taken name.now (block t (records s.now))) }
{
    records(s).any(|r| is_named(r, t, name))
}

// Whether a handle is not 0 and what was found by it is of another kind.
pub fn is_missing(found: &[u8], kind: u8, handle: u32) -> bool
    ensures { result ≡ test (not_there kind found.now handle) }
{
    !(handle == 0) & !store_records::is_kind(found, kind)
}

// The last that is asked of a call that makes an object: its MAC, of which every byte is looked at, and an object number.
#[tactic(auto, unfolding(crate::specs::Rungs::status))]
pub fn seal(x: Session, given: &[u8], made: &[u8; 32]) -> Result<(), Refusal>
    ensures { number_of result ≡ status (sealed_by given.now made.now (value_of x)) }
{
    refuse_if(!hmac::is_same(given, made), Refusal::MacDiffers)?;
    refuse_if(is_used_up(x), Refusal::NoRoom)?;
    Ok(())
}

// A number of two bytes written over those from place k on.
fn set_two(r: &mut [u8; 256], k: usize, n: u16)
    requires { k ≤ 254 }
    ensures { r.new ≡ over k (enc2 n) r.old }
{
    r[k..k + 2].copy_from_slice(&n.to_be_bytes());
}

// How far a session's counters move: its object numbers, and its MAC counter. Each is cut to two bytes.
#[derive(Drop)]
struct Moved {
    objects: u8,
    used: u8,
}

impl Rewrite for Moved {
    ghost makes = { λ m. moved_on m.objects m.used };

    fn rewrite(&self, r: &mut [u8; 256]) {
        let next = two_at(r, NEXT_OBJECT) as u16;
        let counter = two_at(r, MAC_COUNTER) as u16;
        set_two(r, MAC_COUNTER, counter.wrapping_add(u16::from(self.used)));
        set_two(r, NEXT_OBJECT, next.wrapping_add(u16::from(self.objects)));
    }
}

// The session's counters move on.
pub fn advance(s: &mut [u8], t: u32, objects: u8, used: u8)
    ensures { Becomes (map (advanced t objects used) (records s.old)) s.old s.new }
{
    let own = Choice::That(paper::SESSION, t, t);
    rewrite_chosen(s, own, &Moved { objects, used });
}

// A refused call: its session goes with all its records. By a status, and by a refusal.
#[tactic(auto, unfolding(paper::specs::Act::perform))]
pub fn refuse(s: &mut [u8], t: u32, n: u8) -> Reply
    ensures { Answers (perform t (act.refuse n) (records s.old)) result s.old s.new }
{
    store_edits::free_session(s, t);
    bare(n)
}

pub fn reject(s: &mut [u8], t: u32, e: Refusal) -> Reply
    ensures { Answers (perform t (act.refuse (number e)) (records s.old)) result s.old s.new }
{
    refuse(s, t, u8::from(e))
}

// A new record of the session, if there is a free place.
pub fn place(
    s: &mut [u8],
    t: u32,
    used: u8,
    handle: u64,
    attestation: [u8; 32],
    r: &[u8; 256],
) -> Reply
    ensures { Answers (perform t (act.inside handle attestation (advanced t 1 used) (just r.now)) (records s.old)) result s.old s.new }
{
    if !store_records::has(s, Choice::Free) {
        return reject(s, t, Refusal::NoRoom);
    }
    advance(s, t, 1, used);
    store_edits::insert(s, r);
    Reply {
        status: paper::DONE,
        handle,
        attestation,
    }
}
