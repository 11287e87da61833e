// The MAC and the attestation of each method, under a session's key and counter, made in pieces that go into the hash as they stand:
// nothing is copied but the key. Once by name, for the issuer, who has an order; and by call and record, for the store. The promises
// hold for every slice, of whatever form.

#![tactic(auto)]

ghost use Rattle.std.specs.Prelude.{◌≡◌, cond, List, [], ◌++◌, ℕ, ◌+◌, ◌≤◌, length};
ghost use Rattle.hmac.specs.Keyed.{Keyed};
ghost use Rattle.paper.specs.Bytes.{enc2, string, ascii};
ghost use Rattle.paper.specs.Calls.{strings, close_in, key_in, path_in, post_in};
ghost use Rattle.paper.specs.Mac.{mac_under, not_applicable, name_or, each_string, puk_data, policy_data, key_data, path_data, post_name, post_data, key_attested_of, key_attested, close_attested};
ghost use Rattle.call_fields.specs.Fields.{puk_of, policy_of, key_of};

use call_fields::{KeyFields, PolicyFields, PukFields};
use hmac::Mac;
use paper::{
    AUTHORIZATION, BEHIND_SUBJECT, CERTIFICATE_COUNT, CERTIFICATES, CHIP_PUBLIC_KEY, PUBLIC_KEY,
    SESSION_KEY_BYTES, UNLOCKS,
};
use store_records::{byte_at, string_at, text_at, two_at};

// What the MACs of a session are made under besides the method's name: SessionKey, and where the MAC counter stands.
#[derive(Clone, Copy)]
pub struct MacKey<'a> {
    pub key: &'a [u8; 32],
    pub counter: u16,
}

fn two_bytes(n: usize) -> [u8; 2]
    ensures { result ≡ enc2 n }
{
    ((n % 65536) as u16).to_be_bytes()
}

// A MAC under way whose key is SessionKey, name and counter joined.
fn keyed(key: &[u8; 32], name: &[u8], counter: usize) -> Mac
    requires { length name.now ≤ 30 }
    ensures { Keyed result (key.now ++ name.now ++ enc2 counter) [] }
{
    let named = SESSION_KEY_BYTES + name.len();
    let mut k = [0u8; 64];
    k[..SESSION_KEY_BYTES].copy_from_slice(key);
    k[SESSION_KEY_BYTES..named].copy_from_slice(name);
    k[named..named + 2].copy_from_slice(&two_bytes(counter));
    hmac::start(&k[..named + 2])
}

// A string is taken, its length first.
fn with_string(m: Mac, v: &[u8]) -> Mac
    ensures { (k text : List ℕ) → Keyed m k text → Keyed result k (text ++ string v.now) }
{
    let size = two_bytes(v.len());
    hmac::update(hmac::update(m, &size), v)
}

// A string, or `#N/A` where none is given.
fn with_or_none(m: Mac, given: bool, v: &[u8]) -> Mac
    ensures { (k text : List ℕ) → Keyed m k text → Keyed result k (text ++ string (cond given v.now not_applicable)) }
{
    if given {
        return with_string(m, v);
    }
    with_string(m, b"#N/A")
}

// The ID that belongs to a handle, or `#N/A` for none.
fn with_name_or(m: Mac, handle: u32, name: &[u8]) -> Mac
    ensures { (k text : List ℕ) → Keyed m k text → Keyed result k (text ++ string (name_or handle name.now)) }
{
    with_or_none(m, handle != 0, name)
}

// The n certificates of a path, from place k on. There may be many short ones, so each is taken here as `with_string` takes it, without a call.
fn with_certificates(m: Mac, c: &[u8], k: u16, n: u8) -> Mac
    ensures { (key text : List ℕ) → Keyed m key text → Keyed result key (text ++ each_string (strings n k c.now)) }
{
    let mut r = m;
    let mut at = k as usize;
    for _ in 0..n {
        let v = call_reader::string_in(c, at);
        r = hmac::update(hmac::update(r, &two_bytes(v.len())), v);
        at += 2 + two_at(c, at);
    }
    r
}

impl<'a> MacKey<'a> {
    pub fn new(key: &'a [u8; 32], counter: u16) -> Self
        ensures { result ≡ record { key = key.entry; counter = counter } }
    {
        Self { key, counter }
    }

    // The MAC of a call is made at the counter.
    fn begun(self, name: &[u8]) -> Mac
        requires { length name.now ≤ 30 }
        ensures { Keyed result (self.entry.key.now ++ name.now ++ enc2 self.entry.counter) [] }
    {
        keyed(self.key, name, self.counter as usize)
    }

    // An attestation, the second use of a call that makes one, is made at the next counter.
    fn begun_attestation(self) -> Mac
        ensures { Keyed result (self.entry.key.now ++ ascii "Device Attestation" ++ enc2 (self.entry.counter + 1)) [] }
    {
        keyed(self.key, b"Device Attestation", (self.counter as usize) + 1)
    }

    // ---- by name, for who has an order

    // 3 closeProvisioningSession
    pub fn close_under(self, client: &[u8], nonce: &[u8]) -> [u8; 32]
        ensures { result ≡ mac_under self.entry.key.now (ascii "closeProvisioningSession") self.entry.counter (string client.now ++ string nonce.now) }
    {
        let m = self.begun(b"closeProvisioningSession");
        hmac::finish(with_string(with_string(m, client), nonce))
    }

    // 8 createPUKPolicy: format and retry limit come as two bytes
    pub fn puk_under(self, id: &[u8], encrypted: &[u8], rules: &[u8]) -> [u8; 32]
        ensures { result ≡ mac_under self.entry.key.now (ascii "createPUKPolicy") self.entry.counter (string id.now ++ string encrypted.now ++ rules.now) }
    {
        let m = self.begun(b"createPUKPolicy");
        hmac::finish(hmac::update(with_string(with_string(m, id), encrypted), rules))
    }

    // 9 createPINPolicy: the handle of its PUK with the PUK's ID, and nine rules
    pub fn policy_under(self, id: &[u8], puk: u32, puk_id: &[u8], rules: &[u8]) -> [u8; 32]
        ensures { result ≡ mac_under self.entry.key.now (ascii "createPINPolicy") self.entry.counter (string id.now ++ string (name_or puk puk_id.now) ++ rules.now) }
    {
        let m = self.begun(b"createPINPolicy");
        hmac::finish(hmac::update(with_name_or(with_string(m, id), puk, puk_id), rules))
    }

    // 10 createKeyEntry: the handle of its policy with the policy's ID, whether the issuer sets the PIN, and five flags. The MAC under way
    // is kept in one place: a name for each would take that much of the stack for each
    pub fn key_under(
        self,
        id: &[u8],
        entry: &[u8],
        seed: &[u8],
        policy: u32,
        policy_id: &[u8],
        sets: bool,
        pin: &[u8],
        flags: &[u8],
        friendly: &[u8],
        algorithm: &[u8],
        parameters: &[u8],
    ) -> [u8; 32]
        ensures { result ≡ mac_under self.entry.key.now (ascii "createKeyEntry") self.entry.counter (string id.now ++ string entry.now ++ string seed.now ++ string (name_or policy policy_id.now) ++ string (cond sets pin.now not_applicable) ++ flags.now ++ string friendly.now ++ string algorithm.now ++ string parameters.now) }
    {
        let mut m = self.begun(b"createKeyEntry");
        m = with_string(m, id);
        m = with_string(m, entry);
        m = with_string(m, seed);
        m = with_name_or(m, policy, policy_id);
        m = with_or_none(m, sets, pin);
        m = hmac::update(m, flags);
        m = with_string(m, friendly);
        m = with_string(m, algorithm);
        hmac::finish(with_string(m, parameters))
    }

    // 12 setCertificatePath: the n certificates that stand in c from place k on
    pub fn path_under(self, id: &[u8], public: &[u8], c: &[u8], k: u16, n: u8) -> [u8; 32]
        ensures { result ≡ mac_under self.entry.key.now (ascii "setCertificatePath") self.entry.counter (string id.now ++ string public.now ++ each_string (strings n k c.now)) }
    {
        let m = self.begun(b"setCertificatePath");
        hmac::finish(with_certificates(with_string(with_string(m, id), public), c, k, n))
    }

    // 50 postDeleteKey, 51 postUnlockKey: the operation tells the name
    fn begun_post(self, op: u8) -> Mac
        ensures { Keyed result (self.entry.key.now ++ ascii (post_name op) ++ enc2 self.entry.counter) [] }
    {
        if op == UNLOCKS {
            return self.begun(b"postUnlockKey");
        }
        self.begun(b"postDeleteKey")
    }

    pub fn post_under(self, op: u8, authorization: &[u8]) -> [u8; 32]
        ensures { result ≡ mac_under self.entry.key.now (ascii (post_name op)) self.entry.counter (string authorization.now) }
    {
        hmac::finish(with_string(self.begun_post(op), authorization))
    }

    // The attestations of 10 and 3, at the counter behind that of the call
    pub fn attested_key_under(self, id: &[u8], public: &[u8]) -> [u8; 32]
        ensures { result ≡ mac_under self.entry.key.now (ascii "Device Attestation") (self.entry.counter + 1) (key_attested_of id.now public.now) }
    {
        hmac::finish(with_string(with_string(self.begun_attestation(), id), public))
    }

    pub fn attested_close_under(self, nonce: &[u8]) -> [u8; 32]
        ensures { result ≡ mac_under self.entry.key.now (ascii "Device Attestation") (self.entry.counter + 1) (string nonce.now) }
    {
        hmac::finish(with_string(self.begun_attestation(), nonce))
    }

    // ---- by the call and the record behind its handle, for the store

    pub fn of_close(self, client: &[u8], c: &[u8]) -> [u8; 32]
        ensures { result ≡ mac_under self.entry.key.now (ascii "closeProvisioningSession") self.entry.counter (string client.now ++ string (close_in c.now).nonce) }
    {
        self.close_under(client, string_at(c, BEHIND_SUBJECT))
    }

    pub fn attested_close(self, c: &[u8]) -> [u8; 32]
        ensures { result ≡ mac_under self.entry.key.now (ascii "Device Attestation") (self.entry.counter + 1) (close_attested (close_in c.now)) }
    {
        self.attested_close_under(string_at(c, BEHIND_SUBJECT))
    }

    // 8, 9 and 10 by the call's decoded fields; 9 with the record of its PUK, 10 with that of its policy
    pub fn of_puk(self, q: PukFields, c: &[u8]) -> [u8; 32]
        ensures { result ≡ mac_under self.entry.key.now (ascii "createPUKPolicy") self.entry.counter (puk_data (puk_of q c.now [])) }
    {
        let rules = [q.format, q.retry];
        self.puk_under(
            string_at(c, BEHIND_SUBJECT),
            string_at(c, q.encrypted),
            &rules,
        )
    }

    pub fn of_policy(self, q: PolicyFields, puk: &[u8], c: &[u8]) -> [u8; 32]
        ensures { result ≡ mac_under self.entry.key.now (ascii "createPINPolicy") self.entry.counter (policy_data (policy_of q c.now) puk.now) }
    {
        let rules = [
            q.defined,
            q.modifiable,
            q.format,
            q.retry,
            q.grouping,
            q.patterns,
            q.min,
            q.max,
            q.input,
        ];
        self.policy_under(
            string_at(c, BEHIND_SUBJECT),
            q.puk,
            text_at(puk, paper::ID),
            &rules,
        )
    }

    pub fn of_key(self, q: KeyFields, policy: &[u8], c: &[u8]) -> [u8; 32]
        ensures { result ≡ mac_under self.entry.key.now (ascii "createKeyEntry") self.entry.counter (key_data (key_of q c.now []) policy.now) }
    {
        let flags = [q.caching, q.biometric, q.export, q.deletion, q.usage];
        self.key_under(
            string_at(c, BEHIND_SUBJECT),
            string_at(c, q.entry),
            string_at(c, q.seed),
            q.policy,
            text_at(policy, paper::ID),
            call_fields::issuer_sets(q.policy, policy),
            string_at(c, q.pin),
            &flags,
            string_at(c, q.friendly),
            string_at(c, q.algorithm),
            string_at(c, q.parameters),
        )
    }

    pub fn attested_key(self, c: &[u8], chip: &[u8]) -> [u8; 32]
        ensures { result ≡ mac_under self.entry.key.now (ascii "Device Attestation") (self.entry.counter + 1) (key_attested (key_in c.now chip.now)) }
    {
        self.attested_key_under(
            string_at(c, BEHIND_SUBJECT),
            string_at(chip, CHIP_PUBLIC_KEY),
        )
    }

    // 12 with the record of its key
    pub fn of_path(self, k: &[u8], c: &[u8]) -> [u8; 32]
        ensures { result ≡ mac_under self.entry.key.now (ascii "setCertificatePath") self.entry.counter (path_data k.now (path_in c.now)) }
    {
        self.path_under(
            text_at(k, paper::ID),
            text_at(k, PUBLIC_KEY),
            c,
            CERTIFICATES as u16,
            byte_at(c, CERTIFICATE_COUNT),
        )
    }

    pub fn of_post(self, op: u8, c: &[u8]) -> [u8; 32]
        ensures { result ≡ mac_under self.entry.key.now (ascii (post_name op)) self.entry.counter (post_data (post_in c.now [])) }
    {
        self.post_under(op, string_at(c, AUTHORIZATION))
    }
}
