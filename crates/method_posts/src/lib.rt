// Methods 50 and 51: a session asks for the removal or the unlocking of a key of a closed session. Each is a status, which only reads,
// and then what is written: the session's counters and a pending, or the session freed. The meaning is that of the paper's Posting.
// A pending that is stale is left as it is: asking again makes a new one.

#![tactic(auto)]

ghost use Rattle.std.specs.Prelude.{◌≡◌};
ghost use Rattle.paper.specs.Form.{test, some};
ghost use Rattle.paper.specs.Records.{records, block};
ghost use Rattle.paper.specs.Closing.{held};
ghost use Rattle.paper.specs.Calls.{subject, post_in};
ghost use Rattle.paper.specs.Posting.{look, post_rules, post_seal, post_faults, pending_record, post_by};
ghost use Rattle.paper.specs.Act.{perform};
ghost use Rattle.store_session.specs.Decoded.{value_of};
ghost use Rattle.call_fields.specs.Fields.{post_fields};
ghost use Rattle.paper.specs.Mac.{post_name};
ghost use Rattle.method_acts.specs.Rungs.{number_of, status};
ghost use Rattle.method_acts.specs.Answers.{Answers};

use call_fields::PostFields;
use call_mac::MacKey;
use method_acts::{Reply, fresh, is_used_up, passes_limit, refuse_if};
use paper::{
    CLOSED, DELETES, KEY_MANAGEMENT, MAC_BYTES, PARENT, PENDING_END, RECORD_BYTES, Refusal, STATE,
    SUBJECT, UNLOCKS,
};
use store_draft::Draft;
use store_records::{Choice, byte_at, four_at, part_of};
use store_session::Session;

// How often a call uses the MAC counter.
const USES: u8 = 1;

// Where the chip bytes tell whether the signature verified.
const VERIFIED: usize = 0;

const BLANK: u8 = (RECORD_BYTES - PENDING_END) as u8;

// Whether the session t asks for the removal or the unlocking of the key k already.
fn is_held(s: &[u8], t: u32, k: u32) -> bool
    ensures { result ≡ test (some (block t (records s.now)) (held t k)) }
{
    store_records::has(s, Choice::Held(t, k))
}

// All that is asked before the MAC is made.
#[tactic(auto, unfolding(method_acts::specs::Rungs::status, paper::specs::Posting::look))]
fn post_rules(
    s: &[u8],
    x: Session,
    op: u8,
    q: PostFields,
    c: &[u8],
    chip: &[u8],
) -> Result<(), Refusal>
    requires { q ≡ post_fields c.now }
    ensures { number_of result ≡ status (post_rules op c.now chip.now (post_in c.now chip.now) (value_of x) (block (subject c.now) (records s.now)) (look (post_in c.now chip.now).key (records s.now))) }
{
    let key = store_records::target(s, q.key);
    let home = store_records::home(s, q.key);
    let there = store_records::is_kind(key, paper::KEY) & (byte_at(home, STATE) == CLOSED);
    let pinned = !(four_at(key, PARENT) == 0);
    refuse_if(!call_form::is_post(q, c, chip), Refusal::NoForm)?;
    refuse_if(!there, Refusal::NoKey)?;
    refuse_if(!(byte_at(home, KEY_MANAGEMENT) == 1), Refusal::BreaksRule)?;
    refuse_if(is_held(s, four_at(c, SUBJECT), q.key), Refusal::BreaksRule)?;
    refuse_if((op == UNLOCKS) & !pinned, Refusal::BreaksRule)?;
    refuse_if(passes_limit(x, USES), Refusal::BreaksRule)?;
    Ok(())
}

// The MAC, the signature that the chip verified, and an object number.
#[tactic(auto, unfolding(method_acts::specs::Rungs::status))]
fn post_seal(x: Session, op: u8, q: PostFields, c: &[u8], chip: &[u8]) -> Result<(), Refusal>
    requires { q ≡ post_fields c.now }
    ensures { number_of result ≡ status (post_seal (post_name op) (post_in c.now chip.now) (value_of x)) }
{
    let made = MacKey::new(&x.key, x.counter).of_post(op, c);
    refuse_if(
        !hmac::is_same(part_of(c, q.mac, MAC_BYTES), &made),
        Refusal::MacDiffers,
    )?;
    refuse_if(byte_at(chip, VERIFIED) == 0, Refusal::NotVerified)?;
    refuse_if(is_used_up(x), Refusal::NoRoom)?;
    Ok(())
}

fn post_status(
    s: &[u8],
    x: Session,
    op: u8,
    q: PostFields,
    c: &[u8],
    chip: &[u8],
) -> Result<(), Refusal>
    requires { q ≡ post_fields c.now }
    ensures { number_of result ≡ status (post_faults op (post_name op) c.now chip.now (post_in c.now chip.now) (value_of x) (block (subject c.now) (records s.now)) (look (post_in c.now chip.now).key (records s.now))) }
{
    post_rules(s, x, op, q, c, chip)?;
    post_seal(x, op, q, c, chip)
}

pub fn pending_record(op: u8, t: u32, k: u32, x: Session) -> [u8; 256]
    ensures { result ≡ pending_record op t k (value_of x) }
{
    Draft::head(paper::PENDING, op, 0, 0, fresh(t, x), t, k)
        .zeros(BLANK)
        .finish()
}

// Both methods, by their operation.
fn post(s: &mut [u8], x: Session, op: u8, c: &[u8], chip: &[u8]) -> Reply
    ensures { Answers (perform (subject c.now) (post_by op (post_name op) (value_of x) c.now chip.now (block (subject c.now) (records s.old)) (look (post_in c.now chip.now).key (records s.old))) (records s.old)) result s.old s.new }
{
    let t = four_at(c, SUBJECT);
    let q = call_fields::post_fields(c);
    if let Err(e) = post_status(s, x, op, q, c, chip) {
        return method_acts::reject(s, t, e);
    }
    let r = pending_record(op, t, q.key, x);
    method_acts::place(s, t, USES, 0, [0u8; 32], &r)
}

pub fn post_delete(s: &mut [u8], x: Session, c: &[u8], chip: &[u8]) -> Reply
    ensures { Answers (perform (subject c.now) (post_by 50 "postDeleteKey" (value_of x) c.now chip.now (block (subject c.now) (records s.old)) (look (post_in c.now chip.now).key (records s.old))) (records s.old)) result s.old s.new }
{
    post(s, x, DELETES, c, chip)
}

pub fn post_unlock(s: &mut [u8], x: Session, c: &[u8], chip: &[u8]) -> Reply
    ensures { Answers (perform (subject c.now) (post_by 51 "postUnlockKey" (value_of x) c.now chip.now (block (subject c.now) (records s.old)) (look (post_in c.now chip.now).key (records s.old))) (records s.old)) result s.old s.new }
{
    post(s, x, UNLOCKS, c, chip)
}
