// Methods 2, 3 and 5: a session is made, closed or aborted. The session that closes comes by value, and the call's fields are decoded once. The
// meaning is that of the paper's Sessions and Closing.

#![tactic(auto)]

ghost use Rattle.std.specs.Prelude.{◌≡◌, map, ◌+◌, ◌≤◌};
ghost use Rattle.paper.specs.Bytes.{enc4, over, byte};
ghost use Rattle.paper.specs.Form.{test, ◌equals◌, ◌and◌};
ghost use Rattle.paper.specs.Records.{records, handle, next_session, kind as kind_of, bears as bears_it, block};
ghost use Rattle.paper.specs.Calls.{subject, create_in, close_in};
ghost use Rattle.paper.specs.Sessions.{counter, client_taken, given as given_if, session_record, counted, create_session, unfit, close_rules, close_seal};
ghost use Rattle.store_records.specs.View.{Becomes};
ghost use Rattle.store_draft.specs.Drafts.{laid};
ghost use Rattle.store_session.specs.Decoded.{value_of};
ghost use Rattle.call_fields.specs.Fields.{create_fields, close_fields};
ghost use Rattle.method_acts.specs.Rungs.{number_of, status};
ghost use Rattle.method_acts.specs.Answers.{Answers};
ghost use Rattle.method_session.specs.Births.{faults2, of_client};
ghost use Rattle.paper.specs.Sound.{childless};
ghost use Rattle.method_acts.specs.Range.{in_range};
ghost use Rattle.method_session.specs.Ends.{faults3, ended, aborted};

use call_fields::{CloseFields, CreateFields};
use call_mac::MacKey;
use method_acts::{Reply, bare, passes_limit, refuse_if, refused, reject};
use paper::{
    ALGORITHM, CHIP_CLIENT_ID, CLIENT_ID, DONE, HANDLE_STEP, ID_BYTES, KIND, MAC_BYTES,
    MOST_RECORDS, MOST_SESSIONS, NEXT_SESSION, OPEN, OWN, PATH_SET, RECORD_BYTES, Refusal,
    SESSION_END, SESSION_KEY_BYTES, STALE, SUBJECT, TIMES_BYTES,
};
use store_draft::Draft;
use store_edits::{Rewrite, insert, rewrite_chosen};
use store_records::{
    Choice, bears, byte_at, first, four_at, has, is_kind, part_of, records, string_at, text_at,
};
use store_session::Session;

// The first object of a session has this number.
const FIRST_OBJECT: u8 = 1;

// What a session's record leaves blank behind its fields.
const BEHIND: u8 = (RECORD_BYTES - SESSION_END) as u8;

// How often a close uses the MAC counter.
const USES_3: u8 = 2;

// ---- 2: the refusals come first and change nothing; then the counter of session numbers moves on, and the new record takes the lowest
// free place

// Whether the record is a session of this client.
fn is_client(r: &[u8], name: &[u8]) -> bool
    ensures { result ≡ test (of_client name.now r.now) }
{
    if !is_kind(r, paper::SESSION) {
        return false;
    }
    store_records::same(text_at(r, CLIENT_ID), name)
}

// Whether the store has one.
fn is_client_taken(s: &[u8], name: &[u8]) -> bool
    ensures { result ≡ test (client_taken name.now (records s.now)) }
{
    records(s).any(|r| is_client(r, name))
}

// The next session number.
fn next_session(s: &[u8]) -> u32
    ensures { result ≡ next_session (counter (records s.now)) }
{
    four_at(first(s, Choice::Kind(paper::COUNTER)), NEXT_SESSION)
}

// n is the next session number.
#[tactic(auto, unfolding(method_acts::specs::Rungs::status))]
fn create_status(s: &[u8], n: u32, q: CreateFields, c: &[u8], chip: &[u8]) -> Result<(), Refusal>
    requires { (n ≡ next_session (counter (records s.now))) × (q ≡ create_fields c.now) }
    ensures { number_of result ≡ status (faults2 c.now chip.now (records s.now)) }
{
    let algorithm = string_at(c, ALGORITHM);
    let client = string_at(chip, CHIP_CLIENT_ID);
    refuse_if(!call_form::is_create(q, c, chip), Refusal::NoForm)?;
    refuse_if(
        !call_fields::is_session_algorithm(algorithm),
        Refusal::NoAlgorithm,
    )?;
    refuse_if(q.limit == 0, Refusal::BreaksRule)?;
    refuse_if(is_client_taken(s, client), Refusal::BreaksRule)?;
    refuse_if(!(n <= MOST_SESSIONS), Refusal::NoRoom)?;
    refuse_if(!has(s, Choice::Free), Refusal::NoRoom)?;
    Ok(())
}

// 1 if a KeyManagementKey was given.
fn given(v: &[u8]) -> u8
    ensures { result ≡ given_if v.now }
{
    u8::from(!v.is_empty())
}

// The record of the session h; where the call has its form it is 256 bytes long as it stands.
fn session_record(h: u32, q: CreateFields, c: &[u8], chip: &[u8]) -> [u8; 256]
    requires { q ≡ create_fields c.now }
    ensures { result ≡ laid (session_record h (create_in c.now chip.now)) }
{
    Draft::head(paper::SESSION, OPEN, 0, FIRST_OBJECT, u64::from(h), h, 0)
        .padded(ID_BYTES, string_at(c, q.server))
        .padded(ID_BYTES, string_at(chip, CHIP_CLIENT_ID))
        .bytes(part_of(chip, 0, SESSION_KEY_BYTES))
        .two(0)
        .two(q.limit)
        .byte(q.privacy)
        .byte(given(string_at(c, q.management)))
        .bytes(part_of(c, q.times, TIMES_BYTES))
        .zeros(BEHIND)
        .finish()
}

// The next session number becomes one more.
#[derive(Drop)]
struct OneMore;

impl Rewrite for OneMore {
    ghost makes = { λ w r. over 4 (enc4 (next_session r + 1)) r };

    fn rewrite(&self, r: &mut [u8; 256]) {
        let n = four_at(r, NEXT_SESSION).wrapping_add(1);
        r[NEXT_SESSION..NEXT_SESSION + 4].copy_from_slice(&n.to_be_bytes());
    }
}

// The counter of session numbers moves on.
fn count(s: &mut [u8])
    ensures { Becomes (map counted (records s.old)) s.old s.new }
{
    rewrite_chosen(s, Choice::Kind(paper::COUNTER), &OneMore);
}

fn handle_of(n: u32) -> u32
    requires { n ≤ 65535 }
    ensures { result ≡ handle n 0 }
{
    n * HANDLE_STEP
}

pub fn create(s: &mut [u8], c: &[u8], chip: &[u8]) -> Reply
    ensures { Answers (create_session c.now chip.now (records s.old)) result s.old s.new }
{
    let q = call_fields::create_fields(c);
    let number = next_session(s);
    if let Err(e) = create_status(s, number, q, c, chip) {
        return refused(e);
    }
    let h = handle_of(number);
    let r = session_record(h, q, c, chip);
    count(s);
    insert(s, &r);
    Reply {
        status: DONE,
        handle: h as u64,
        attestation: [0u8; 32],
    }
}

// ---- 3 and 5: a refused close frees the session with all its records; one that is not refused carries out what the session holds and
// seals it, in one shot. A close in a store of more than 256 records answers 19 and changes nothing, so that its promise has no premise

// Whether a record of the session t is a PUK or a policy without child in it.
fn is_childless(s: &[u8], t: u32, r: &[u8]) -> bool
    ensures { result ≡ test (bears_it t r.now and childless (block t (records s.now)) r.now) }
{
    if !bears(r, t) {
        return false;
    }
    match byte_at(r, KIND) {
        paper::PUK => !has(s, Choice::Child(paper::POLICY, four_at(r, OWN), t)),
        paper::POLICY => !has(s, Choice::Child(paper::KEY, four_at(r, OWN), t)),
        _ => false,
    }
}

fn is_marked(r: &[u8], t: u32, kind: u8, at: usize, mark: u8) -> bool
    ensures { result ≡ test (bears_it t r.now and (kind_of r.now equals kind and byte at r.now equals mark)) }
{
    if !bears(r, t) {
        return false;
    }
    (byte_at(r, KIND) == kind) & (byte_at(r, at) == mark)
}

// What a close does not suffer: a key without path, a PUK or a policy without child, a stale pending.
fn is_unfit(s: &[u8], t: u32) -> bool
    ensures { result ≡ test (unfit (block t (records s.now))) }
{
    let pathless = records(s).any(|r| is_marked(r, t, paper::KEY, PATH_SET, 0));
    let childless = records(s).any(|r| is_childless(s, t, r));
    let stale = records(s).any(|r| is_marked(r, t, paper::PENDING, STALE, 1));
    pathless | (childless | stale)
}

// 3: all that is asked before the MAC is made, and the MAC, of which every byte is looked at, with what comes behind it.
#[tactic(auto, unfolding(method_acts::specs::Rungs::status))]
fn close_rules(x: Session, q: CloseFields, c: &[u8], chip: &[u8]) -> Result<(), Refusal>
    requires { q ≡ close_fields c.now }
    ensures { number_of result ≡ status (close_rules c.now chip.now (value_of x)) }
{
    refuse_if(!call_form::is_close(q, c, chip), Refusal::NoForm)?;
    refuse_if(passes_limit(x, USES_3), Refusal::BreaksRule)?;
    Ok(())
}

#[tactic(auto, unfolding(method_acts::specs::Rungs::status, paper::specs::Bytes::part))]
fn close_seal(s: &[u8], x: Session, q: CloseFields, c: &[u8]) -> Result<(), Refusal>
    requires { q ≡ close_fields c.now }
    ensures { number_of result ≡ status (close_seal (close_in c.now) (value_of x) (block (subject c.now) (records s.now))) }
{
    let client = x.client;
    let name = part_of(&client, 0, x.clientlength as usize);
    let made = MacKey::new(&x.key, x.counter).of_close(name, c);
    let given = part_of(c, q.mac, MAC_BYTES);
    refuse_if(!hmac::is_same(given, &made), Refusal::MacDiffers)?;
    refuse_if(is_unfit(s, four_at(c, SUBJECT)), Refusal::NotFit)?;
    Ok(())
}

fn close_status(s: &[u8], x: Session, q: CloseFields, c: &[u8], chip: &[u8]) -> Result<(), Refusal>
    requires { q ≡ close_fields c.now }
    ensures { number_of result ≡ status (faults3 (value_of x) c.now chip.now (records s.now)) }
{
    close_rules(x, q, c, chip)?;
    close_seal(s, x, q, c)
}

pub fn close(s: &mut [u8], x: Session, c: &[u8], chip: &[u8]) -> Reply
    ensures { Answers (in_range (ended (value_of x) c.now chip.now) (records s.old)) result s.old s.new }
{
    if MOST_RECORDS < s.len() / RECORD_BYTES {
        return refused(Refusal::Unsound);
    }
    let q = call_fields::close_fields(c);
    let t = four_at(c, SUBJECT);
    if let Err(e) = close_status(s, x, q, c, chip) {
        return reject(s, t, e);
    }
    let a = MacKey::new(&x.key, x.counter).attested_close(c);
    effect_deeds::close(s, t);
    Reply {
        status: DONE,
        handle: 0,
        attestation: a,
    }
}

// 5: the session and all its records are gone, whatever the form of the call.
pub fn abort(s: &mut [u8], c: &[u8], chip: &[u8]) -> Reply
    ensures { Answers (aborted c.now chip.now (records s.old)) result s.old s.new }
{
    let t = four_at(c, SUBJECT);
    if !call_form::is_abort(c, chip) {
        return reject(s, t, Refusal::NoForm);
    }
    store_edits::free_session(s, t);
    bare(DONE)
}
