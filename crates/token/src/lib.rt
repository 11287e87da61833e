// The token's two functions: a store is formatted, a call is answered. Both take any bytes. The meaning is that of the paper's Answer.
// Whatever is refused before the method is known, or before its session is found open, leaves the store as it is.

#![tactic(auto)]

ghost use Rattle.std.specs.Prelude.{◌≡◌, true, ◌∷◌, ◌≤◌, length};
ghost use Rattle.paper.specs.Bytes.{enc4, over};
ghost use Rattle.paper.specs.Calls.{method};
ghost use Rattle.paper.specs.Records.{records};
ghost use Rattle.paper.specs.Sound.{sound as is_sound};
ghost use Rattle.paper.specs.Answer.{early_faults, session_step, user_step, step as step_of, judged, answer, fresh_counter, formatted};
ghost use Rattle.store_session.specs.Decoded.{value_of};
ghost use Rattle.method_acts.specs.Rungs.{number_of, status};
ghost use Rattle.method_acts.specs.Answers.{Answers, bare_reply};
ghost use Rattle.token.specs.Said.{known, told, made};
ghost use Rattle.token.specs.Early.{place_of, Passed, Open, Found, making};

use method_acts::{Reply, bare, refuse_if, refused};
use paper::{
    DONE, METHOD, REPLY_ATTESTATION, REPLY_BYTES, REPLY_HANDLE, REPLY_STATUS, Refusal, SHORT_REPLY,
    SUBJECT, UNSOUND,
};
use store_records::{Choice, byte_at, four_at, record_at};
use store_session::Session;

// The last byte of the counter's number.
const LAST_OF_NUMBER: usize = paper::COUNTER_END - 1;

// The counter of session numbers at 1.
fn counter() -> [u8; 256]
    ensures { result ≡ fresh_counter }
{
    let mut r = [0u8; 256];
    r[paper::KIND] = paper::COUNTER;
    r[LAST_OF_NUMBER] = 1;
    r
}

// The counter in the first place and all else free; or 19, where no store has that length.
pub fn format(store: &mut [u8]) -> u8
    ensures { made result store.new ≡ formatted store.old }
{
    if !sound_store::length_fits(store) {
        return UNSOUND;
    }
    store.fill(0);
    let r = counter();
    store_edits::put(store, 0, &r);
    DONE
}

// The place of the session that a call names, or the number of records.
fn place(s: &[u8], c: &[u8]) -> usize
    ensures { result ≡ place_of s.now c.now }
{
    let t = four_at(c, SUBJECT);
    store_records::find(s, Choice::That(paper::SESSION, t, t))
}

// What is asked before the method: a sound store, a method and a length that there are, an open session.
#[tactic(auto, unfolding(method_acts::specs::Rungs::status))]
fn early(s: &[u8], i: usize, c: &[u8]) -> Result<(), Refusal>
    requires { i ≡ place_of s.now c.now }
    ensures { number_of result ≡ status (early_faults s.now c.now) }
{
    let closed = !(byte_at(record_at(s, i), paper::STATE) == paper::OPEN);
    refuse_if(!sound_store::is_sound(s), Refusal::Unsound)?;
    refuse_if(!call_form::is_known(c), Refusal::NoForm)?;
    refuse_if(call_form::is_session_call(c) & closed, Refusal::NotOpen)?;
    Ok(())
}

// Whether a method makes something in a session and has large drafts: 8, 9, 10 and 12.
fn is_making(m: u8) -> bool
    ensures { result ≡ making m }
{
    matches!(m, 8 | 9 | 10 | 12)
}

fn make_step<'a>(s: &mut [u8], x: Session, c: &'a [u8], chip: &'a [u8]) -> Reply
    requires { Found s.old c.now (value_of x) × (making (method c.now) ≡ true) }
    ensures { Answers (session_step c.now chip.now (records s.old)) result s.old s.new }
{
    match byte_at(c, METHOD) {
        8 => method_policies::make_puk(s, x, c, chip),
        9 => method_policies::make_policy(s, x, c, chip),
        10 => method_keys::make_key(s, x, c, chip),
        _ => method_keys::set_path(s, x, c, chip),
    }
}

// The calls of a session, which is decoded once: something is made in it, it is ended, or it asks for a removal or an unlocking. They stand
// apart so that none has the drafts of another below it on the stack.
fn session_step<'a>(s: &mut [u8], i: usize, c: &'a [u8], chip: &'a [u8]) -> Reply
    requires { Open s.old c.now × (i ≡ place_of s.old c.now) }
    ensures { Answers (session_step c.now chip.now (records s.old)) result s.old s.new }
{
    let x = store_session::decode(record_at(s, i));
    let m = byte_at(c, METHOD);
    if is_making(m) {
        return make_step(s, x, c, chip);
    }
    match m {
        3 => method_session::close(s, x, c, chip),
        5 => method_session::abort(s, c, chip),
        50 => method_posts::post_delete(s, x, c, chip),
        _ => method_posts::post_unlock(s, x, c, chip),
    }
}

// The user's calls.
fn user_step(s: &mut [u8], c: &[u8], chip: &[u8]) -> u8
    requires { is_sound s.old ≡ true }
    ensures { Answers (user_step c.now chip.now (records s.old)) (bare_reply result) s.old s.new }
{
    match byte_at(c, METHOD) {
        80 => method_users::delete(s, c, chip),
        82 => method_users::unlock(s, c, chip),
        83 => method_users::change(s, c, chip),
        _ => method_users::use_key(s, c, chip),
    }
}

fn step<'a>(s: &mut [u8], i: usize, c: &'a [u8], chip: &'a [u8]) -> Reply
    requires { Passed s.old c.now × (i ≡ place_of s.old c.now) }
    ensures { Answers (step_of c.now chip.now (records s.old)) result s.old s.new }
{
    if call_form::is_session_call(c) {
        return session_step(s, i, c, chip);
    }
    if byte_at(c, METHOD) == 2 {
        return method_session::create(s, c, chip);
    }
    bare(user_step(s, c, chip))
}

fn judge<'a>(s: &mut [u8], c: &'a [u8], chip: &'a [u8]) -> Reply
    ensures { known result s.new ≡ judged s.old c.now chip.now }
{
    let i = place(s, c);
    if let Err(e) = early(s, i, c) {
        return refused(e);
    }
    step(s, i, c, chip)
}

// The reply's bytes: status and handle, and then the attestation.
fn write_head(b: &mut [u8], n: u8, h: u64)
    requires { 37 ≤ length b.old }
    ensures { b.new ≡ over 0 (n ∷ enc4 h) b.old }
{
    b[REPLY_STATUS] = n;
    b[REPLY_HANDLE..REPLY_ATTESTATION].copy_from_slice(&h.to_be_bytes()[4..]);
}

fn write_attestation(b: &mut [u8], a: [u8; 32])
    requires { 37 ≤ length b.old }
    ensures { b.new ≡ over 5 a b.old }
{
    b[REPLY_ATTESTATION..REPLY_BYTES].copy_from_slice(&a);
}

// The answer to a call. A reply of fewer than 37 bytes is not written, and nothing is done.
pub fn call<'a>(store: &mut [u8], call: &'a [u8], chip: &'a [u8], reply: &mut [u8]) -> u8
    ensures { told result store.new reply.new ≡ answer store.old call.now chip.now reply.old }
{
    if reply.len() < REPLY_BYTES {
        return SHORT_REPLY;
    }
    let r = judge(store, call, chip);
    let a = r.attestation;
    write_head(reply, r.status, r.handle);
    write_attestation(reply, a);
    r.status
}

// What `token_c` exports for C: whether the store is sound, for firmware that wants to know it without a call, and the same two functions
// under the names that C knows.
pub fn sks_sound(store: &[u8]) -> bool
    ensures { result ≡ is_sound store.now }
{
    sound_store::is_sound(store)
}

pub fn sks_format(store: &mut [u8]) -> u8
    ensures { made result store.new ≡ formatted store.old }
{
    format(store)
}

pub fn sks_call<'a>(store: &mut [u8], c: &'a [u8], chip: &'a [u8], reply: &mut [u8]) -> u8
    ensures { told result store.new reply.new ≡ answer store.old c.now chip.now reply.old }
{
    call(store, c, chip, reply)
}
