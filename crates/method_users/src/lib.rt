// Methods 80, 82, 83 and 100: the user deletes, unlocks, changes or uses a key of a closed session. What a call comes to is found by
// reading alone: the key, its session, its policy and its PUK are each looked up once; the refusals come first, and then the value is
// tried. That is a status and a deed, and the deed is done to the store.
// A store of more than 256 records answers 19 and stays, so that no promise has a premise.

#![tactic(auto)]

ghost use Rattle.std.specs.Prelude.{◌≡◌, not, ◌&&◌, List, map, ℕ, eqb, length};
ghost use Rattle.paper.specs.Form.{Rec, test, ◌equals◌, no};
ghost use Rattle.paper.specs.Records.{records};
ghost use Rattle.paper.specs.Calls.{typed as typed_in, typed_new};
ghost use Rattle.paper.specs.Pin.{verdict, pin_check, puk_check, pin_missed, puk_missed};
ghost use Rattle.paper.specs.Users.{tried, delete_faults, unlock_faults, change_faults, use_faults, delete_key, unlock_key, change_pin, use_key};
ghost use Rattle.store_records.specs.View.{Becomes};
ghost use Rattle.effect_deeds.specs.Outcome.{pinned_by};
ghost use Rattle.method_acts.specs.Rungs.{number_of, status};
ghost use Rattle.method_acts.specs.Answers.{Answers, bare_reply};
ghost use Rattle.method_acts.specs.Range.{in_range};
ghost use Rattle.method_users.specs.Faults.{Seen, reached, without_puk};
ghost use Rattle.method_users.specs.Steps.{case_of, step_by, lost_with_puk, done_by, out_of};

use call_form::{is_change, is_typed};
use call_reader::string_in;
use effect_deeds::{Pinned, carry, change_pin};
use effect_plan::Keys;
use method_acts::{both, either, is_missing, refuse_if};
use paper::{
    BEHIND_SUBJECT, BY_PIN, CLOSED, DELETE_PROTECTION, DONE, GROUPING, HOME, KEY, KEY_ERRORS,
    MOST_RECORDS, NEVER, OWN, PARENT, POLICY, PUK, PUK_ERRORS, RECORD_BYTES, RETRY_LIMIT, Refusal,
    SHARED, STATE, SUBJECT, USER_MODIFIABLE, VALUE,
};
use store_edits::{Edit, clear_count};
use store_records::{Choice, byte_at, four_at, home, is_kind, policy_of, puk_of, target, text_at};

// What a typed value comes to.
#[derive(Clone, Copy)]
enum Verdict {
    Locked,
    Wrong,
    Right,
}

// What is done to the store: nothing; a count is moved; a key is removed, or removed after its PUK's count became 0 (the key's handle,
// the PUK's and its session); a key is unlocked; a key gets the call's new PIN.
#[derive(Clone, Copy)]
enum Deed {
    Nothing,
    Count(Choice, Edit),
    Remove(u32),
    Clear(u32, u32, u32),
    Unlock(u32),
    Repin(Pinned),
}

// What a call comes to: what is told, and what is done, which may be something although the call is refused (a wrong PIN is counted).
#[derive(Clone, Copy)]
struct Step {
    status: Result<(), Refusal>,
    deed: Deed,
}

// ---- what refuses a call: the first refusal of the paper's list that applies

// What is typed, and the new PIN behind it.
fn typed<'a>(c: &'a [u8]) -> &'a [u8]
    ensures { result.now ≡ typed_in c.now }
{
    string_in(c, BEHIND_SUBJECT)
}

fn new_pin<'a>(c: &'a [u8]) -> &'a [u8]
    ensures { result.now ≡ typed_new c.now }
{
    let q = call_fields::typed_fields(c);
    string_in(c, q.second)
}

fn is_given(c: &[u8]) -> bool
    ensures { result ≡ test (no (length (typed_in c.now) equals 0)) }
{
    let v = typed(c);
    v.len() != 0
}

// A key of a closed session.
fn is_reached(x: &[u8], h: &[u8]) -> bool
    ensures { result ≡ test (reached x.now h.now) }
{
    both(is_kind(x, KEY), byte_at(h, STATE) == CLOSED)
}

// That x and h were looked up for the call is said by each of the four (`Seen`): it relates them to the call and the store, so no type holds it.

// 80
#[tactic(auto, unfolding(method_acts::specs::Rungs::status))]
fn delete_status(x: &[u8], h: &[u8], c: &[u8], chip: &[u8]) -> Result<(), Refusal>
    ensures { (rs : List Rec) → Seen c.now rs x.now h.now → number_of result ≡ status (delete_faults c.now chip.now x.now rs) }
{
    let p = byte_at(x, DELETE_PROTECTION);
    refuse_if(!is_typed(c, chip), Refusal::NoForm)?;
    refuse_if(!is_reached(x, h), Refusal::NoKey)?;
    refuse_if(p == NEVER, Refusal::BreaksRule)?;
    refuse_if(both(p == 0, is_given(c)), Refusal::Wrong)?;
    Ok(())
}

// 82
fn is_without_puk(x: &[u8], pol: &[u8]) -> bool
    ensures { result ≡ test (without_puk x.now pol.now) }
{
    either(
        four_at(x, PARENT) == 0,
        both(is_kind(pol, POLICY), four_at(pol, PARENT) == 0),
    )
}

#[tactic(auto, unfolding(method_acts::specs::Rungs::status))]
fn unlock_status(
    x: &[u8],
    h: &[u8],
    pol: &[u8],
    puk: &[u8],
    c: &[u8],
    chip: &[u8],
) -> Result<(), Refusal>
    ensures { (rs : List Rec) → Seen c.now rs x.now h.now → number_of result ≡ status (unlock_faults c.now chip.now x.now pol.now puk.now rs) }
{
    let gone = either(
        is_missing(pol, POLICY, four_at(x, PARENT)),
        is_missing(puk, PUK, four_at(pol, PARENT)),
    );
    refuse_if(!is_typed(c, chip), Refusal::NoForm)?;
    refuse_if(!is_reached(x, h), Refusal::NoKey)?;
    refuse_if(is_without_puk(x, pol), Refusal::BreaksRule)?;
    refuse_if(gone, Refusal::NoParent)?;
    Ok(())
}

// 83
#[tactic(auto, unfolding(method_acts::specs::Rungs::status))]
fn change_status(x: &[u8], h: &[u8], pol: &[u8], c: &[u8], chip: &[u8]) -> Result<(), Refusal>
    ensures { (rs : List Rec) → Seen c.now rs x.now h.now → number_of result ≡ status (change_faults c.now chip.now x.now pol.now rs) }
{
    refuse_if(!is_change(c, chip), Refusal::NoForm)?;
    refuse_if(!is_reached(x, h), Refusal::NoKey)?;
    refuse_if(four_at(x, PARENT) == 0, Refusal::BreaksRule)?;
    refuse_if(byte_at(pol, USER_MODIFIABLE) == 0, Refusal::BreaksRule)?;
    refuse_if(!call_text::pin_fits(pol, new_pin(c)), Refusal::BreaksRule)?;
    Ok(())
}

// 100
#[tactic(auto, unfolding(method_acts::specs::Rungs::status))]
fn use_status(x: &[u8], h: &[u8], pol: &[u8], c: &[u8], chip: &[u8]) -> Result<(), Refusal>
    ensures { (rs : List Rec) → Seen c.now rs x.now h.now → number_of result ≡ status (use_faults c.now chip.now x.now pol.now rs) }
{
    let p = four_at(x, PARENT);
    refuse_if(!is_typed(c, chip), Refusal::NoForm)?;
    refuse_if(!is_reached(x, h), Refusal::NoKey)?;
    refuse_if(is_missing(pol, POLICY, p), Refusal::NoParent)?;
    refuse_if(both(p == 0, is_given(c)), Refusal::Wrong)?;
    Ok(())
}

// ---- a typed PIN or PUK: at the limit nothing is compared and nothing changes; a wrong value adds one; what a right one does is the
// method's. Values are compared over their whole length

// A limit of 0 keeps no count and never locks.
fn is_locked(limit: u8, errors: u8) -> bool
    ensures { result ≡ (not (eqb limit 0) && eqb errors limit) }
{
    if limit == 0 {
        return false;
    }
    errors == limit
}

fn judge(limit: u8, errors: u8, stored: &[u8], typed: &[u8]) -> Verdict
    ensures { result ≡ case_of (verdict limit errors stored.now typed.now) }
{
    if is_locked(limit, errors) {
        return Verdict::Locked;
    }
    if hmac::is_same(stored, typed) {
        return Verdict::Right;
    }
    Verdict::Wrong
}

// What a verdict comes to, where a wrong value and a right one have these deeds.
fn by(v: Verdict, missed: Deed, right: Deed) -> Step
    ensures { result ≡ step_by v missed right }
{
    match v {
        Verdict::Locked => Step {
            status: Err(Refusal::Wrong),
            deed: Deed::Nothing,
        },
        Verdict::Wrong => Step {
            status: Err(Refusal::Wrong),
            deed: missed,
        },
        Verdict::Right => Step {
            status: Ok(()),
            deed: right,
        },
    }
}

// The value against the key's PIN, under its policy.
fn by_pin(pol: &[u8], x: &[u8], typed: &[u8], right: Deed) -> Step
    ensures { (w : List ℕ) (rs : List Rec) → out_of result w rs ≡ tried (pin_check pol.now x.now typed.now) rs (map (pin_missed x.now) rs) (done_by right w rs) }
{
    let v = judge(
        byte_at(pol, RETRY_LIMIT),
        byte_at(x, KEY_ERRORS),
        text_at(x, VALUE),
        typed,
    );
    let key = Choice::That(KEY, four_at(x, OWN), four_at(x, HOME));
    by(v, Deed::Count(key, Edit::AddOne(KEY_ERRORS as u8)), right)
}

// The value against the PUK's. A PUK without limit keeps no count.
fn by_puk(puk: &[u8], typed: &[u8], right: Deed) -> Step
    ensures { (w : List ℕ) (rs : List Rec) → out_of result w rs ≡ tried (puk_check puk.now typed.now) rs (map (puk_missed puk.now) rs) (done_by right w rs) }
{
    let v = judge(
        byte_at(puk, RETRY_LIMIT),
        byte_at(puk, PUK_ERRORS),
        text_at(puk, VALUE),
        typed,
    );
    let it = Choice::Limited(PUK, four_at(puk, OWN), four_at(puk, HOME));
    by(v, Deed::Count(it, Edit::AddOne(PUK_ERRORS as u8)), right)
}

// ---- what each call comes to

// 80: by the PIN under DeleteProtection 1; by the PUK under 2, whose count becomes 0 first: it is seen where another policy keeps that PUK.
fn delete_step(store: &[u8], c: &[u8], chip: &[u8]) -> Step
    ensures { out_of result (typed_new c.now) (records store.now) ≡ in_range (delete_key c.now chip.now) (records store.now) }
{
    if MOST_RECORDS < store.len() / RECORD_BYTES {
        return Step {
            status: Err(Refusal::Unsound),
            deed: Deed::Nothing,
        };
    }
    let k = four_at(c, SUBJECT);
    let x = target(store, k);
    if let Err(e) = delete_status(x, home(store, k), c, chip) {
        return Step {
            status: Err(e),
            deed: Deed::Nothing,
        };
    }
    let protection = byte_at(x, DELETE_PROTECTION);
    if protection == 0 {
        return Step {
            status: Ok(()),
            deed: Deed::Remove(k),
        };
    }
    let pol = policy_of(store, x);
    if protection == BY_PIN {
        return by_pin(pol, x, typed(c), Deed::Remove(k));
    }
    let puk = puk_of(store, pol);
    by_puk(
        puk,
        typed(c),
        Deed::Clear(k, four_at(puk, OWN), four_at(puk, HOME)),
    )
}

// 82
fn unlock_step(store: &[u8], c: &[u8], chip: &[u8]) -> Step
    ensures { out_of result (typed_new c.now) (records store.now) ≡ in_range (unlock_key c.now chip.now) (records store.now) }
{
    if MOST_RECORDS < store.len() / RECORD_BYTES {
        return Step {
            status: Err(Refusal::Unsound),
            deed: Deed::Nothing,
        };
    }
    let k = four_at(c, SUBJECT);
    let x = target(store, k);
    let pol = policy_of(store, x);
    let puk = puk_of(store, pol);
    if let Err(e) = unlock_status(x, home(store, k), pol, puk, c, chip) {
        return Step {
            status: Err(e),
            deed: Deed::Nothing,
        };
    }
    by_puk(puk, typed(c), Deed::Unlock(k))
}

// Who gets a new PIN with the key.
fn pinned(x: &[u8], pol: &[u8]) -> Pinned
    ensures { result ≡ pinned_by x.now pol.now }
{
    Pinned {
        key: four_at(x, OWN),
        home: four_at(x, HOME),
        policy: four_at(x, PARENT),
        shared: both(is_kind(pol, POLICY), byte_at(pol, GROUPING) == SHARED),
    }
}

// 83
fn change_step(store: &[u8], c: &[u8], chip: &[u8]) -> Step
    ensures { out_of result (typed_new c.now) (records store.now) ≡ in_range (change_pin c.now chip.now) (records store.now) }
{
    if MOST_RECORDS < store.len() / RECORD_BYTES {
        return Step {
            status: Err(Refusal::Unsound),
            deed: Deed::Nothing,
        };
    }
    let k = four_at(c, SUBJECT);
    let x = target(store, k);
    let pol = policy_of(store, x);
    if let Err(e) = change_status(x, home(store, k), pol, c, chip) {
        return Step {
            status: Err(e),
            deed: Deed::Nothing,
        };
    }
    by_pin(pol, x, typed(c), Deed::Repin(pinned(x, pol)))
}

// 100: a key without policy has no PIN.
fn use_step(store: &[u8], c: &[u8], chip: &[u8]) -> Step
    ensures { out_of result (typed_new c.now) (records store.now) ≡ use_key c.now chip.now (records store.now) }
{
    let k = four_at(c, SUBJECT);
    let x = target(store, k);
    let pol = policy_of(store, x);
    if let Err(e) = use_status(x, home(store, k), pol, c, chip) {
        return Step {
            status: Err(e),
            deed: Deed::Nothing,
        };
    }
    if four_at(x, PARENT) == 0 {
        return Step {
            status: Ok(()),
            deed: Deed::Nothing,
        };
    }
    let used = Choice::That(KEY, four_at(x, OWN), four_at(x, HOME));
    by_pin(
        pol,
        x,
        typed(c),
        Deed::Count(used, Edit::Clear(KEY_ERRORS as u8)),
    )
}

// ---- and is done

// The PUK's count becomes 0, and then the key is removed.
fn clear_and_remove(store: &mut [u8], k: u32, own: u32, session: u32)
    ensures { Becomes (lost_with_puk k own session (records store.old)) store.old store.new }
{
    clear_count(store, PUK, own, session, PUK_ERRORS as u8);
    carry(store, Keys::One(k), Keys::Nobody);
}

fn act(store: &mut [u8], d: Deed, c: &[u8])
    ensures { Becomes (done_by d (typed_new c.now) (records store.old)) store.old store.new }
{
    match d {
        Deed::Nothing => {}
        Deed::Count(which, edit) => store_edits::change(store, which, edit),
        Deed::Remove(k) => carry(store, Keys::One(k), Keys::Nobody),
        Deed::Clear(k, own, session) => clear_and_remove(store, k, own, session),
        Deed::Unlock(k) => carry(store, Keys::Nobody, Keys::One(k)),
        Deed::Repin(g) => change_pin(store, g, new_pin(c)),
    }
}

fn enact(store: &mut [u8], s: Step, c: &[u8]) -> u8
    ensures { Answers (out_of s (typed_new c.now) (records store.old)) (bare_reply result) store.old store.new }
{
    act(store, s.deed, c);
    match s.status {
        Ok(()) => DONE,
        Err(e) => u8::from(e),
    }
}

// 80
pub fn delete(store: &mut [u8], c: &[u8], chip: &[u8]) -> u8
    ensures { Answers (in_range (delete_key c.now chip.now) (records store.old)) (bare_reply result) store.old store.new }
{
    let s = delete_step(store, c, chip);
    enact(store, s, c)
}

// 82
pub fn unlock(store: &mut [u8], c: &[u8], chip: &[u8]) -> u8
    ensures { Answers (in_range (unlock_key c.now chip.now) (records store.old)) (bare_reply result) store.old store.new }
{
    let s = unlock_step(store, c, chip);
    enact(store, s, c)
}

// 83
pub fn change(store: &mut [u8], c: &[u8], chip: &[u8]) -> u8
    ensures { Answers (in_range (change_pin c.now chip.now) (records store.old)) (bare_reply result) store.old store.new }
{
    let s = change_step(store, c, chip);
    enact(store, s, c)
}

// 100
pub fn use_key(store: &mut [u8], c: &[u8], chip: &[u8]) -> u8
    ensures { Answers (use_key c.now chip.now (records store.old)) (bare_reply result) store.old store.new }
{
    let s = use_step(store, c, chip);
    enact(store, s, c)
}
