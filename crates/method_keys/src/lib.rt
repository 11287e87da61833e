// Methods 10 and 12: a session makes a key, and gives it its certificate path. The session comes by value, and the call's fields are decoded
// once. Each method is a status, which only reads, and then what is written: the session's counters with the new record or the digest, or the
// session freed. The meaning is that of the paper's Objects.

#![tactic(auto)]

ghost use Rattle.std.specs.Prelude.{◌≡◌, [], map};
ghost use Rattle.paper.specs.Form.{test, some, only};
ghost use Rattle.paper.specs.Records.{records, block, is};
ghost use Rattle.paper.specs.Sound.{governs as governs_it};
ghost use Rattle.paper.specs.Calls.{subject, key_in, path_in};
ghost use Rattle.paper.specs.Objects.{misplaced, unlike, unprotected, key_names, key_numbers, key_pin, key_seal, key_faults, key_record, make_key_by, path_rules, path_seal, path_faults, certified as with_path, set_path_by};
ghost use Rattle.paper.specs.Act.{perform};
ghost use Rattle.store_records.specs.View.{Becomes};
ghost use Rattle.store_draft.specs.Drafts.{laid};
ghost use Rattle.store_session.specs.Decoded.{value_of};
ghost use Rattle.call_fields.specs.Fields.{key_fields, key_of, path_fields};
ghost use Rattle.method_acts.specs.Rungs.{number_of, status};
ghost use Rattle.method_acts.specs.Answers.{Answers};
ghost use Rattle.method_keys.specs.Keys.{other_pin, unlike_in, cut};

use call_fields::{KeyFields, PathFields};
use call_mac::MacKey;
use method_acts::{Reply, fresh, is_missing, is_taken, passes_limit, refuse_if, reject, seal};
use paper::{
    BEHIND_SUBJECT, BY_PIN, BY_PUK, CHIP_PUBLIC_KEY, DIGEST, DIGEST_BYTES, DONE, GROUPING, HOME,
    ID_BYTES, KEY_END, LAST_PROTECTION, MAC_BYTES, OWN, PARENT, PATH_SET, PIN_BYTES, PUBLIC_KEY,
    PUBLIC_KEY_BYTES, RECORD_BYTES, Refusal, SHARED, SUBJECT, VALUE, VALUE_END,
};
use store_draft::Draft;
use store_edits::{Rewrite, rewrite_chosen};
use store_records::{
    Choice, bears, byte_at, four_at, is_child, is_kind, part_of, records, string_at, text_at, that,
};
use store_session::Session;

// What a key's record leaves blank: before the public key, the digest, and all behind its fields.
const BEHIND_VALUE: u8 = (PUBLIC_KEY - VALUE_END) as u8;

const NO_DIGEST: u8 = DIGEST_BYTES as u8;

const BEHIND: u8 = (RECORD_BYTES - KEY_END) as u8;

// How often 10 and 12 use the MAC counter.
const USES_10: u8 = 2;

const USES_12: u8 = 1;

// ---- 10: pol is the record of the policy that the call names, v the PIN

// What is asked first: the form, the algorithms, and the names against the store.
#[tactic(auto, unfolding(method_acts::specs::Rungs::status))]
fn key_names(s: &[u8], pol: &[u8], q: KeyFields, c: &[u8], chip: &[u8]) -> Result<(), Refusal>
    requires { q ≡ key_fields c.now }
    ensures { number_of result ≡ status (key_names c.now chip.now (key_in c.now chip.now) pol.now (block (subject c.now) (records s.now))) }
{
    let entry = string_at(c, q.entry);
    let key = string_at(c, q.algorithm);
    refuse_if(!call_form::is_key(q, c, chip), Refusal::NoForm)?;
    refuse_if(
        !call_fields::is_entry_algorithm(entry),
        Refusal::NoAlgorithm,
    )?;
    refuse_if(!call_fields::is_key_algorithm(key), Refusal::NoAlgorithm)?;
    refuse_if(!(q.endorsed == 0), Refusal::NoAlgorithm)?;
    let taken = is_taken(s, four_at(c, SUBJECT), string_at(c, BEHIND_SUBJECT));
    refuse_if(taken, Refusal::BreaksRule)?;
    refuse_if(
        is_missing(pol, paper::POLICY, q.policy),
        Refusal::BreaksRule,
    )?;
    Ok(())
}

// The call's numbers by themselves.
#[tactic(auto, unfolding(method_acts::specs::Rungs::status))]
fn key_numbers(q: KeyFields, c: &[u8]) -> Result<(), Refusal>
    ensures { number_of result ≡ status (key_numbers (key_of q c.now [])) }
{
    let parameters = string_at(c, q.parameters);
    refuse_if(!(q.biometric == 0), Refusal::BreaksRule)?;
    refuse_if(!(q.export <= LAST_PROTECTION), Refusal::BreaksRule)?;
    refuse_if(!(q.deletion <= LAST_PROTECTION), Refusal::BreaksRule)?;
    refuse_if(!(parameters.len() == 0), Refusal::BreaksRule)?;
    Ok(())
}

// A PIN or PINValue given where none belongs, or none where the issuer sets one.
fn is_misplaced(pol: &[u8], q: KeyFields, c: &[u8], chip: &[u8]) -> bool
    ensures { result ≡ test (misplaced (key_of q c.now chip.now) pol.now) }
{
    let sets = call_fields::issuer_sets(q.policy, pol);
    let given = string_at(c, q.pin);
    let opened = call_fields::opened(chip);
    let bare = (q.policy == 0) & !(given.len() == 0);
    let strange = !sets & !(opened.len() == 0);
    bare | (strange | (sets & (given.len() == 0)))
}

// Whether the policy is that of the key x, and x a key of the session under it that has another PIN.
fn governs(pol: &[u8], x: &[u8]) -> bool
    ensures { result ≡ test (governs_it pol.now x.now) }
{
    is_kind(pol, paper::POLICY) & is_child(x, paper::KEY, four_at(pol, OWN), four_at(pol, HOME))
}

fn is_unlike(x: &[u8], t: u32, pol: &[u8], v: &[u8]) -> bool
    ensures { result ≡ test (unlike_in t pol.now v.now x.now) }
{
    if !bears(x, t) {
        return false;
    }
    if !governs(pol, x) {
        return false;
    }
    !hmac::is_same(text_at(x, VALUE), v)
}

// The same of some key, asked only where the policy's keys share their PIN.
fn has_unlike(s: &[u8], t: u32, pol: &[u8], v: &[u8]) -> bool
    ensures { result ≡ test (some (block t (records s.now)) (other_pin pol.now v.now)) }
{
    records(s).any(|r| is_unlike(r, t, pol, v))
}

fn is_not_shared(s: &[u8], t: u32, pol: &[u8], v: &[u8]) -> bool
    ensures { result ≡ test (unlike v.now pol.now (block t (records s.now))) }
{
    if byte_at(pol, GROUPING) == SHARED {
        return has_unlike(s, t, pol, v);
    }
    false
}

fn is_unprotected(pol: &[u8], q: KeyFields) -> bool
    ensures { result ≡ test (unprotected (key_of q [] []) pol.now) }
{
    let pin = (q.deletion == BY_PIN) & (q.policy == 0);
    pin | ((q.deletion == BY_PUK) & (four_at(pol, PARENT) == 0))
}

// The PIN against its policy and the policy's other keys, the protection, and the limit.
#[tactic(auto, unfolding(method_acts::specs::Rungs::status))]
fn key_pin(
    s: &[u8],
    x: Session,
    pol: &[u8],
    v: &[u8],
    q: KeyFields,
    c: &[u8],
    chip: &[u8],
) -> Result<(), Refusal>
    ensures { number_of result ≡ status (key_pin (key_of q c.now chip.now) v.now pol.now (value_of x) (block (subject c.now) (records s.now))) }
{
    let broken = !(q.policy == 0) & !call_text::pin_fits(pol, v);
    refuse_if(is_misplaced(pol, q, c, chip), Refusal::BreaksRule)?;
    refuse_if(broken, Refusal::BreaksRule)?;
    refuse_if(
        is_not_shared(s, four_at(c, SUBJECT), pol, v),
        Refusal::BreaksRule,
    )?;
    refuse_if(is_unprotected(pol, q), Refusal::BreaksRule)?;
    refuse_if(passes_limit(x, USES_10), Refusal::BreaksRule)?;
    Ok(())
}

fn key_seal(x: Session, pol: &[u8], q: KeyFields, c: &[u8]) -> Result<(), Refusal>
    ensures { number_of result ≡ status (key_seal (key_of q c.now []) pol.now (value_of x)) }
{
    let made = MacKey::new(&x.key, x.counter).of_key(q, pol, c);
    seal(x, part_of(c, q.mac, MAC_BYTES), &made)
}

fn status_key(
    s: &[u8],
    x: Session,
    pol: &[u8],
    v: &[u8],
    q: KeyFields,
    c: &[u8],
    chip: &[u8],
) -> Result<(), Refusal>
    requires { q ≡ key_fields c.now }
    ensures { number_of result ≡ status (key_faults c.now chip.now (key_in c.now chip.now) v.now pol.now (value_of x) (block (subject c.now) (records s.now))) }
{
    key_names(s, pol, q, c, chip)?;
    key_numbers(q, c)?;
    key_pin(s, x, pol, v, q, c, chip)?;
    key_seal(x, pol, q, c)
}

fn key_record(x: Session, v: &[u8], q: KeyFields, c: &[u8], chip: &[u8]) -> [u8; 256]
    ensures { result ≡ laid (key_record (subject c.now) (key_of q c.now chip.now) v.now (value_of x)) }
{
    let t = four_at(c, SUBJECT);
    Draft::head(paper::KEY, 0, 0, q.deletion, fresh(t, x), t, q.policy)
        .padded(ID_BYTES, string_at(c, BEHIND_SUBJECT))
        .padded(PIN_BYTES, v)
        .zeros(BEHIND_VALUE)
        .padded(PUBLIC_KEY_BYTES, string_at(chip, CHIP_PUBLIC_KEY))
        .zeros(NO_DIGEST)
        .byte(q.caching)
        .byte(q.export)
        .byte(q.usage)
        .zeros(BEHIND)
        .finish()
}

// The call done. The PIN is a part of the call or of the chip bytes, so both are lent for one lifetime. A PIN longer than 16 bytes, which no
// policy of a sound store lets by, would not fit the record: `cut` says what is kept of it then.
pub fn make_key<'a>(s: &mut [u8], x: Session, c: &'a [u8], chip: &'a [u8]) -> Reply
    ensures { Answers (perform (subject c.now) (cut (make_key_by (value_of x) c.now chip.now (block (subject c.now) (records s.old)))) (records s.old)) result s.old s.new }
{
    let q = call_fields::key_fields(c);
    let t = four_at(c, SUBJECT);
    let pol = that(s, paper::POLICY, q.policy, t);
    let v = call_fields::pin(q, c, chip, pol);
    if let Err(e) = status_key(s, x, pol, v, q, c, chip) {
        return reject(s, t, e);
    }
    let a = MacKey::new(&x.key, x.counter).attested_key(c, chip);
    let r = key_record(x, v, q, c, chip);
    method_acts::place(s, t, USES_10, fresh(t, x), a, &r)
}

// ---- 12: k is the record of the key that the call names

// All that is asked before the MAC is made, and the MAC.
#[tactic(auto, unfolding(method_acts::specs::Rungs::status))]
fn path_rules(x: Session, k: &[u8], q: PathFields, c: &[u8], chip: &[u8]) -> Result<(), Refusal>
    requires { q ≡ path_fields c.now }
    ensures { number_of result ≡ status (path_rules c.now chip.now k.now (value_of x)) }
{
    refuse_if(!call_form::is_path(q, c, chip), Refusal::NoForm)?;
    refuse_if(!is_kind(k, paper::KEY), Refusal::NoKey)?;
    refuse_if(byte_at(k, PATH_SET) == 1, Refusal::BreaksRule)?;
    refuse_if(passes_limit(x, USES_12), Refusal::BreaksRule)?;
    Ok(())
}

#[tactic(auto, unfolding(method_acts::specs::Rungs::status))]
fn path_seal(x: Session, k: &[u8], q: PathFields, c: &[u8]) -> Result<(), Refusal>
    requires { q ≡ path_fields c.now }
    ensures { number_of result ≡ status (path_seal (path_in c.now) k.now (value_of x)) }
{
    let made = MacKey::new(&x.key, x.counter).of_path(k, c);
    let given = part_of(c, q.mac, MAC_BYTES);
    refuse_if(!hmac::is_same(given, &made), Refusal::MacDiffers)?;
    Ok(())
}

fn status_path(x: Session, k: &[u8], q: PathFields, c: &[u8], chip: &[u8]) -> Result<(), Refusal>
    requires { q ≡ path_fields c.now }
    ensures { number_of result ≡ status (path_faults c.now chip.now (path_in c.now) k.now (value_of x)) }
{
    path_rules(x, k, q, c, chip)?;
    path_seal(x, k, q, c)
}

// A key gets a path whose end-entity certificate has this digest.
#[derive(Drop)]
struct Certified {
    digest: [u8; 32],
}

impl Rewrite for Certified {
    ghost makes = { λ w. with_path w.digest };

    fn rewrite(&self, r: &mut [u8; 256]) {
        r[DIGEST..DIGEST + DIGEST_BYTES].copy_from_slice(&self.digest);
        r[PATH_SET] = 1;
    }
}

// The key k of the session t gets it.
fn certify(s: &mut [u8], k: u32, t: u32, d: [u8; 32])
    ensures { Becomes (map (only (is 4 k t) (with_path d)) (records s.old)) s.old s.new }
{
    let key = Choice::That(paper::KEY, k, t);
    rewrite_chosen(s, key, &Certified { digest: d });
}

pub fn set_path(s: &mut [u8], x: Session, c: &[u8], chip: &[u8]) -> Reply
    ensures { Answers (perform (subject c.now) (set_path_by (value_of x) c.now chip.now (block (subject c.now) (records s.old))) (records s.old)) result s.old s.new }
{
    let q = call_fields::path_fields(c);
    let t = four_at(c, SUBJECT);
    if let Err(e) = status_path(x, that(s, paper::KEY, q.key, t), q, c, chip) {
        return reject(s, t, e);
    }
    let d = call_fields::first_digest(c);
    method_acts::advance(s, t, 0, USES_12);
    certify(s, q.key, t, d);
    method_acts::bare(DONE)
}
