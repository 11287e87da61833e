// Methods 8 and 9: a session makes a PUK or a PIN policy. Each is a status, which only reads, and then what is written: the session's
// counters and the new record, or the session freed. The meaning is that of the paper's Objects.

#![tactic(auto)]

ghost use Rattle.std.specs.Prelude.{◌≡◌, []};
ghost use Rattle.paper.specs.Records.{records, at, block, PUK};
ghost use Rattle.paper.specs.Calls.{subject, puk_in, policy_in};
ghost use Rattle.paper.specs.Objects.{puk_rules, puk_seal, puk_faults, puk_record, make_puk_by, policy_names, policy_numbers, policy_seal, policy_faults, policy_record, make_policy_by};
ghost use Rattle.paper.specs.Act.{perform};
ghost use Rattle.store_draft.specs.Drafts.{laid};
ghost use Rattle.store_session.specs.Decoded.{value_of};
ghost use Rattle.call_fields.specs.Fields.{puk_fields, puk_of, policy_fields, policy_of};
ghost use Rattle.method_acts.specs.Rungs.{number_of, status};
ghost use Rattle.method_acts.specs.Answers.{Answers};

use call_fields::{PolicyFields, PukFields};
use call_mac::MacKey;
use method_acts::{Reply, fresh, is_missing, is_taken, passes_limit, refuse_if, seal};
use paper::{
    BEHIND_SUBJECT, ID_BYTES, LAST_FORMAT, LAST_GROUPING, LAST_PATTERNS, MAC_BYTES, PIN_BYTES,
    POLICY_END, RECORD_BYTES, Refusal, SUBJECT, VALUE_END,
};
use store_draft::Draft;
use store_records::{four_at, part_of, string_at};
use store_session::Session;

// How often a call uses the MAC counter.
const USES: u8 = 1;

// What a record has behind its fields.
const PUK_BLANK: u8 = (RECORD_BYTES - VALUE_END) as u8;

const POLICY_BLANK: u8 = (RECORD_BYTES - POLICY_END) as u8;

// 8: all that is asked before the MAC is made.
#[tactic(auto, unfolding(method_acts::specs::Rungs::status))]
fn puk_rules(s: &[u8], x: Session, q: PukFields, c: &[u8], chip: &[u8]) -> Result<(), Refusal>
    requires { q ≡ puk_fields c.now }
    ensures { number_of result ≡ status (puk_rules c.now chip.now (puk_in c.now chip.now) chip.now (value_of x) (block (subject c.now) (records s.now))) }
{
    let taken = is_taken(s, four_at(c, SUBJECT), string_at(c, BEHIND_SUBJECT));
    refuse_if(!call_form::is_puk(q, c, chip), Refusal::NoForm)?;
    refuse_if(taken, Refusal::BreaksRule)?;
    refuse_if(!(q.format <= LAST_FORMAT), Refusal::BreaksRule)?;
    refuse_if(!call_text::format_fits(q.format, chip), Refusal::BreaksRule)?;
    refuse_if(passes_limit(x, USES), Refusal::BreaksRule)?;
    Ok(())
}

fn puk_seal(x: Session, q: PukFields, c: &[u8]) -> Result<(), Refusal>
    requires { q ≡ puk_fields c.now }
    ensures { number_of result ≡ status (puk_seal (puk_in c.now []) (value_of x)) }
{
    let made = MacKey::new(&x.key, x.counter).of_puk(q, c);
    seal(x, part_of(c, q.mac, MAC_BYTES), &made)
}

fn puk_status(s: &[u8], x: Session, q: PukFields, c: &[u8], chip: &[u8]) -> Result<(), Refusal>
    requires { q ≡ puk_fields c.now }
    ensures { number_of result ≡ status (puk_faults c.now chip.now (puk_in c.now chip.now) chip.now (value_of x) (block (subject c.now) (records s.now))) }
{
    puk_rules(s, x, q, c, chip)?;
    puk_seal(x, q, c)
}

pub fn puk_record(t: u32, q: PukFields, x: Session, c: &[u8], chip: &[u8]) -> [u8; 256]
    ensures { result ≡ laid (puk_record t (puk_of q c.now chip.now) chip.now (value_of x)) }
{
    Draft::head(paper::PUK, q.format, q.retry, 0, fresh(t, x), t, 0)
        .padded(ID_BYTES, string_at(c, BEHIND_SUBJECT))
        .padded(PIN_BYTES, chip)
        .zeros(PUK_BLANK)
        .finish()
}

pub fn make_puk(s: &mut [u8], x: Session, c: &[u8], chip: &[u8]) -> Reply
    ensures { Answers (perform (subject c.now) (make_puk_by (value_of x) c.now chip.now (block (subject c.now) (records s.old))) (records s.old)) result s.old s.new }
{
    let t = four_at(c, SUBJECT);
    let q = call_fields::puk_fields(c);
    if let Err(e) = puk_status(s, x, q, c, chip) {
        return method_acts::reject(s, t, e);
    }
    let r = puk_record(t, q, x, c, chip);
    method_acts::place(s, t, USES, fresh(t, x), [0u8; 32], &r)
}

// 9: all that is asked before the MAC is made: first of the call with the store, then of the call's numbers.
#[tactic(auto, unfolding(method_acts::specs::Rungs::status))]
fn policy_names(
    s: &[u8],
    found: &[u8],
    q: PolicyFields,
    c: &[u8],
    chip: &[u8],
) -> Result<(), Refusal>
    requires { q ≡ policy_fields c.now }
    ensures { number_of result ≡ status (policy_names c.now chip.now (policy_in c.now) found.now (block (subject c.now) (records s.now))) }
{
    let taken = is_taken(s, four_at(c, SUBJECT), string_at(c, BEHIND_SUBJECT));
    refuse_if(!call_form::is_policy(q, c, chip), Refusal::NoForm)?;
    refuse_if(taken, Refusal::BreaksRule)?;
    refuse_if(is_missing(found, paper::PUK, q.puk), Refusal::BreaksRule)?;
    Ok(())
}

#[tactic(auto, unfolding(method_acts::specs::Rungs::status))]
fn policy_numbers(x: Session, q: PolicyFields) -> Result<(), Refusal>
    ensures { number_of result ≡ status (policy_numbers (policy_of q []) (value_of x)) }
{
    let lengths = (1 <= q.min) & ((q.min <= q.max) & (q.max <= PIN_BYTES));
    refuse_if(!(q.format <= LAST_FORMAT), Refusal::BreaksRule)?;
    refuse_if(q.retry == 0, Refusal::BreaksRule)?;
    refuse_if(!(q.grouping <= LAST_GROUPING), Refusal::BreaksRule)?;
    refuse_if(!(q.patterns <= LAST_PATTERNS), Refusal::BreaksRule)?;
    refuse_if(!lengths, Refusal::BreaksRule)?;
    refuse_if(!(q.input == 0), Refusal::BreaksRule)?;
    refuse_if(passes_limit(x, USES), Refusal::BreaksRule)?;
    Ok(())
}

fn policy_seal(x: Session, q: PolicyFields, found: &[u8], c: &[u8]) -> Result<(), Refusal>
    requires { q ≡ policy_fields c.now }
    ensures { number_of result ≡ status (policy_seal (policy_in c.now) found.now (value_of x)) }
{
    let made = MacKey::new(&x.key, x.counter).of_policy(q, found, c);
    seal(x, part_of(c, q.mac, MAC_BYTES), &made)
}

fn policy_status(
    s: &[u8],
    x: Session,
    q: PolicyFields,
    c: &[u8],
    chip: &[u8],
) -> Result<(), Refusal>
    requires { q ≡ policy_fields c.now }
    ensures { number_of result ≡ status (policy_faults c.now chip.now (policy_in c.now) (at PUK (policy_in c.now).puk (subject c.now) (block (subject c.now) (records s.now))) (value_of x) (block (subject c.now) (records s.now))) }
{
    let found = store_records::that(s, paper::PUK, q.puk, four_at(c, SUBJECT));
    policy_names(s, found, q, c, chip)?;
    policy_numbers(x, q)?;
    policy_seal(x, q, found, c)
}

pub fn policy_record(t: u32, q: PolicyFields, x: Session, c: &[u8]) -> [u8; 256]
    ensures { result ≡ laid (policy_record t (policy_of q c.now) (value_of x)) }
{
    Draft::head(
        paper::POLICY,
        q.format,
        q.retry,
        q.grouping,
        fresh(t, x),
        t,
        q.puk,
    )
    .padded(ID_BYTES, string_at(c, BEHIND_SUBJECT))
    .byte(q.defined)
    .byte(q.modifiable)
    .byte(q.patterns)
    .byte(q.min)
    .byte(q.max)
    .zeros(POLICY_BLANK)
    .finish()
}

pub fn make_policy(s: &mut [u8], x: Session, c: &[u8], chip: &[u8]) -> Reply
    ensures { Answers (perform (subject c.now) (make_policy_by (value_of x) c.now chip.now (block (subject c.now) (records s.old))) (records s.old)) result s.old s.new }
{
    let t = four_at(c, SUBJECT);
    let q = call_fields::policy_fields(c);
    if let Err(e) = policy_status(s, x, q, c, chip) {
        return method_acts::reject(s, t, e);
    }
    let r = policy_record(t, q, x, c);
    method_acts::place(s, t, USES, fresh(t, x), [0u8; 32], &r)
}
