// A session's record by value: decoded once, its fields are read by name; encoded again, it is the record.

#![tactic(auto)]

ghost use Rattle.std.specs.Prelude.{◌≡◌};
ghost use Rattle.paper.specs.Bytes.{two};
ghost use Rattle.store_session.specs.Decoded.{block, decoded, encoded};

use paper::{
    CLIENT_ID, CLIENT_TIME, HANDLE_BYTES, HOME, KEY_LIMIT, KEY_MANAGEMENT, LIFE_TIME, MAC_COUNTER,
    NEXT_OBJECT, OWN, PRIVACY, RECORD_BYTES, SESSION_END, STATE,
};
use store_draft::Draft;
use store_records::{byte_at, four_at, part_of, two_at};

// What a session's record leaves blank: the parent's handle, and all behind its fields.
const NO_PARENT: u8 = HANDLE_BYTES as u8;

const BEHIND: u8 = (RECORD_BYTES - SESSION_END) as u8;

// The fields in the table's order, from byte 1 on. An ID is its length and 32 bytes, zero behind its length:
// fixed memory, and the record byte for byte.
#[derive(Clone, Copy)]
pub struct Session {
    pub state: u8,
    pub next: u16,
    pub own: u32,
    pub session: u32,
    pub serverlength: u8,
    pub server: [u8; 32],
    pub clientlength: u8,
    pub client: [u8; 32],
    pub key: [u8; 32],
    pub counter: u16,
    pub limit: u16,
    pub privacy: u8,
    pub managed: u8,
    pub time: u32,
    pub life: u32,
}

fn block_of(r: &[u8], k: usize) -> [u8; 32]
    ensures { result ≡ block k r.now }
{
    let mut b = [0u8; 32];
    let part = part_of(r, k, 32);
    b[..part.len()].copy_from_slice(part);
    b
}

// The number of two bytes at place k.
fn number_at(r: &[u8], k: usize) -> u16
    ensures { result ≡ two k r.now }
{
    two_at(r, k) as u16
}

// The session that a record holds.
pub fn decode(r: &[u8]) -> Session
    ensures { result ≡ decoded r.now }
{
    let server = block_of(r, paper::ID + 1);
    let client = block_of(r, CLIENT_ID + 1);
    let key = block_of(r, paper::SESSION_KEY);
    Session {
        state: byte_at(r, STATE),
        next: number_at(r, NEXT_OBJECT),
        own: four_at(r, OWN),
        session: four_at(r, HOME),
        serverlength: byte_at(r, paper::ID),
        server,
        clientlength: byte_at(r, CLIENT_ID),
        client,
        key,
        counter: number_at(r, MAC_COUNTER),
        limit: number_at(r, KEY_LIMIT),
        privacy: byte_at(r, PRIVACY),
        managed: byte_at(r, KEY_MANAGEMENT),
        time: four_at(r, CLIENT_TIME),
        life: four_at(r, LIFE_TIME),
    }
}

// The record that holds a session.
pub fn encode(x: Session) -> [u8; 256]
    ensures { result ≡ encoded x }
{
    Draft::start()
        .byte(paper::SESSION)
        .byte(x.state)
        .two(usize::from(x.next))
        .four(u64::from(x.own))
        .four(u64::from(x.session))
        .zeros(NO_PARENT)
        .byte(x.serverlength)
        .bytes(&x.server)
        .byte(x.clientlength)
        .bytes(&x.client)
        .bytes(&x.key)
        .two(usize::from(x.counter))
        .two(usize::from(x.limit))
        .byte(x.privacy)
        .byte(x.managed)
        .four(u64::from(x.time))
        .four(u64::from(x.life))
        .zeros(BEHIND)
        .finish()
}
