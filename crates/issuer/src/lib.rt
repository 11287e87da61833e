// The issuer's half: the calls of methods 3, 8, 9, 10, 12, 50 and 51 written from an order, and the two attestations checked;
// `issuer_c` exports them for C. Each builder puts its parameters into an order, and `build` does the rest: it tests the range, then
// the room in the buffer; then the order makes the MAC from its own slices and writes the call. No order is asked to be in range, and
// none reaches outside what is lent.

#![tactic(auto)]

ghost use Rattle.std.specs.Prelude.{◌≡◌, List, [], ◌∷◌, ◌++◌, ℕ, ◌+◌, ◌≤◌, length};
ghost use Rattle.paper.specs.Bytes.{enc2, enc4, string};
ghost use Rattle.paper.specs.Form.{Form, Fact, test, ◌equals◌, ◌=<◌, ◌and◌};
ghost use Rattle.paper.specs.Issuing.{issued, has_length, is_id, close_ordered, close_call, puk_ordered, puk_call, policy_ordered, policy_rule_bytes, policy_call, key_ordered, key_flag_bytes, key_call, pin_ordered, path_ordered, certificates_ordered, path_call, post_ordered, post_call, key_attests, close_attests};
ghost use Rattle.paper.specs.Issuing as issuing;
ghost use Rattle.issuer.specs.Told.{told, LongAs, Says, Wrote, issuer_held, close_held, puk_held, policy_held, key_held, path_held, post_held, issuer_of, close_of, puk_of, policy_of, key_of, path_of, post_of, close_issued, puk_issued, policy_issued, key_issued, path_issued, post_issued};

use call_mac::MacKey;
use paper::{
    BEHIND_SUBJECT, CERTIFICATES, DELETES, DONE, HANDLE_BYTES, ID_BYTES, ISSUER_PIN, LAST_COUNT,
    LONGEST_AUTHORIZATION, LONGEST_CALL, LONGEST_ENCRYPTED, LONGEST_NAME, LONGEST_NONCE,
    LONGEST_PARAMETERS, LONGEST_PIN_VALUE, LONGEST_SEED, MAC_BYTES, METHOD, NO_FORM, NO_PIN,
    PUBLIC_KEY_BYTES, SESSION_KEY_BYTES, SHORT_REPLY, SUBJECT, UNLOCKS, USER_PIN,
};
use store_records::all_within;

// A string starts with its length; nine rules of one byte stand behind the PUK in a call of 9.
const LENGTH_BYTES: usize = 2;

const RULES: usize = 9;

// How long a call of 8 and of 10 is without its strings.
const PUK_FIXED: usize = 43;

const KEY_FIXED: usize = 62;

// ---- what is asked of a field

// A SessionKey of 32 bytes, and a counter with room for so many uses.
fn is_ready(key: &[u8], counter: u16, uses: u8) -> bool
    ensures { result ≡ test (length key.now equals 32 and counter + uses =< 65535) }
{
    (key.len() == SESSION_KEY_BYTES) & (usize::from(counter) + usize::from(uses) <= LAST_COUNT)
}

fn has_length(v: &[u8], lo: usize, hi: usize) -> bool
    ensures { result ≡ test (has_length lo hi v.now) }
{
    (lo <= v.len()) & (v.len() <= hi)
}

fn is_id(v: &[u8]) -> bool
    ensures { result ≡ test (is_id v.now) }
{
    has_length(v, 1, usize::from(ID_BYTES)) & all_within(v, 0x21, 0x7E)
}

// ---- pieces written one after another: each tells the place behind it

fn put(out: &mut [u8], k: usize, v: &[u8]) -> usize
    requires { k + length v.now ≤ length out.old }
    ensures { Wrote v.now k result out.old out.new }
{
    out[k..k + v.len()].copy_from_slice(v);
    k + v.len()
}

fn put_two(out: &mut [u8], k: usize, n: usize) -> usize
    requires { k + 2 ≤ length out.old }
    ensures { Wrote (enc2 n) k result out.old out.new }
{
    put(out, k, &((n % 65536) as u16).to_be_bytes())
}

fn put_four(out: &mut [u8], k: usize, n: u32) -> usize
    requires { k + 4 ≤ length out.old }
    ensures { Wrote (enc4 n) k result out.old out.new }
{
    put(out, k, &n.to_be_bytes())
}

fn put_string(out: &mut [u8], k: usize, v: &[u8]) -> usize
    requires { k + 2 + length v.now ≤ length out.old }
    ensures { Wrote (string v.now) k result out.old out.new }
{
    let n = put_two(out, k, v.len());
    put(out, n, v)
}

// Method and session.
fn put_head(out: &mut [u8], method: u8, session: u32) -> usize
    requires { 5 ≤ length out.old }
    ensures { Wrote (method ∷ enc4 session) 0 result out.old out.new }
{
    out[METHOD] = method;
    put_four(out, SUBJECT, session)
}

// A SessionKey of 32 bytes.
fn key_of(key: &[u8]) -> [u8; 32]
    requires { length key.now ≡ 32 }
    ensures { result ≡ key.now }
{
    let mut r = [0u8; 32];
    r.copy_from_slice(key);
    r
}

// ---- an order, and how it is built, whatever its method

// What an issuer knows of its session: its handle, its SessionKey, and the MAC counter before the call.
#[derive(Clone, Copy)]
struct Issuer<'a> {
    session: u32,
    key: &'a [u8],
    counter: u16,
}

// What an issuer orders: the fields of one method's call, and what the store would find behind its handles.
trait Order {
    // The paper's range of such an order, and the call that it means.
    ghost ordered: { issuing.Issuer → Self → Form };

    ghost call: { issuing.Issuer → Self → List ℕ };

    // How long that call is, whoever the issuer.
    ghost size: { Self → ℕ };

    fn is_in_range(&self, issuer: &Issuer<'_>) -> bool
        ensures { Says result (ordered (issuer_held issuer.now) self.now) };

    // How long its call is. An order in range is asked for, so that the lengths add up.
    fn length(&self) -> usize
        requires { (i : issuing.Issuer) × Fact (ordered i self.now) }
        ensures told { LongAs result (size self.now) }
        ensures meant { (i : issuing.Issuer) → length (call i self.now) ≡ size self.now };

    // Its call, written into the front of a buffer; the place behind it is told.
    fn write(&self, issuer: &Issuer<'_>, out: &mut [u8]) -> usize
        requires { (length issuer.now.key.now ≡ 32) × (size self.now ≤ length out.old) }
        ensures { Wrote (call (issuer_held issuer.now) self.now) 0 result out.old out.new };

    // Every range asks for a SessionKey of 32 bytes.
    ghost keyed: { (i : issuing.Issuer) (o : Self) → Fact (ordered i o) → length i.key ≡ 32 };
}

// The range is asked first, then the longest call, then the room in the buffer.
fn build<O: Order>(order: &O, issuer: &Issuer<'_>, out: &mut [u8], written: &mut usize) -> u8
    ensures { told result written.new out.new ≡ issued (O.ordered (issuer_held issuer.now) order.now) (O.call (issuer_held issuer.now) order.now) out.old }
{
    *written = 0;
    if !order.is_in_range(issuer) {
        return NO_FORM;
    }
    let n = order.length();
    if LONGEST_CALL < n {
        return NO_FORM;
    }
    if out.len() < n {
        return SHORT_REPLY;
    }
    *written = order.write(issuer, out);
    DONE
}

// ---- 3 closeProvisioningSession

// The session's ClientSessionID stands in the MAC's data, and not in the call.
#[derive(Clone, Copy)]
struct CloseOrder<'a> {
    client: &'a [u8],
    nonce: &'a [u8],
}

impl Order for CloseOrder<'_> {
    ghost ordered = { λ i o. close_ordered i (close_held o) };

    ghost call = { λ i o. close_call i (close_held o) };

    ghost size = { λ o. 39 + length o.nonce.now };

    fn is_in_range(&self, issuer: &Issuer<'_>) -> bool {
        let strings = is_id(self.client) & has_length(self.nonce, 1, LONGEST_NONCE);
        is_ready(issuer.key, issuer.counter, 2) & strings
    }

    fn length(&self) -> usize {
        BEHIND_SUBJECT + LENGTH_BYTES + self.nonce.len() + MAC_BYTES
    }

    fn write(&self, issuer: &Issuer<'_>, out: &mut [u8]) -> usize {
        let k = key_of(issuer.key);
        let m = MacKey::new(&k, issuer.counter).close_under(self.client, self.nonce);
        let mut at = put_head(out, 3, issuer.session);
        at = put_string(out, at, self.nonce);
        put(out, at, &m)
    }

    ghost keyed = { λ i o f. f.0.0 };
}

pub fn sks_build_close<'a>(
    session: u32,
    key: &'a [u8],
    counter: u16,
    client: &'a [u8],
    nonce: &'a [u8],
    out: &mut [u8],
    written: &mut usize,
) -> u8
    ensures { told result written.new out.new ≡ close_issued (issuer_of session key.now counter) (close_of client.now nonce.now) out.old }
{
    let issuer = Issuer {
        session,
        key,
        counter,
    };
    let order = CloseOrder { client, nonce };
    build(&order, &issuer, out, written)
}

// ---- 8 createPUKPolicy

#[derive(Clone, Copy)]
struct PukOrder<'a> {
    id: &'a [u8],
    encrypted: &'a [u8],
    format: u8,
    retry: u8,
}

impl Order for PukOrder<'_> {
    ghost ordered = { λ i o. puk_ordered i (puk_held o) };

    ghost call = { λ i o. puk_call i (puk_held o) };

    ghost size = { λ o. 43 + length o.id.now + length o.encrypted.now };

    fn is_in_range(&self, issuer: &Issuer<'_>) -> bool {
        let strings = is_id(self.id) & has_length(self.encrypted, 1, LONGEST_ENCRYPTED);
        is_ready(issuer.key, issuer.counter, 1) & strings
    }

    fn length(&self) -> usize {
        PUK_FIXED + self.id.len() + self.encrypted.len()
    }

    fn write(&self, issuer: &Issuer<'_>, out: &mut [u8]) -> usize {
        let k = key_of(issuer.key);
        let rules = [self.format, self.retry];
        let m = MacKey::new(&k, issuer.counter).puk_under(self.id, self.encrypted, &rules);
        let mut at = put_head(out, 8, issuer.session);
        at = put_string(out, at, self.id);
        at = put_string(out, at, self.encrypted);
        at = put(out, at, &rules);
        put(out, at, &m)
    }

    ghost keyed = { λ i o f. f.0.0 };
}

pub fn sks_build_puk<'a>(
    session: u32,
    key: &'a [u8],
    counter: u16,
    id: &'a [u8],
    encrypted: &'a [u8],
    format: u8,
    retry: u8,
    out: &mut [u8],
    written: &mut usize,
) -> u8
    ensures { told result written.new out.new ≡ puk_issued (issuer_of session key.now counter) (puk_of id.now encrypted.now format retry) out.old }
{
    let issuer = Issuer {
        session,
        key,
        counter,
    };
    let order = PukOrder {
        id,
        encrypted,
        format,
        retry,
    };
    build(&order, &issuer, out, written)
}

// ---- 9 createPINPolicy

// The PUK's ID stands in the MAC's data, and not in the call; so for the ID of a key's policy below.
#[derive(Clone, Copy)]
struct PolicyOrder<'a> {
    id: &'a [u8],
    puk: u32,
    puk_id: &'a [u8],
    defined: u8,
    modifiable: u8,
    format: u8,
    retry: u8,
    grouping: u8,
    patterns: u8,
    min: u8,
    max: u8,
    input: u8,
}

impl PolicyOrder<'_> {
    fn rules(&self) -> [u8; 9]
        ensures { result ≡ policy_rule_bytes (policy_held self.now) }
    {
        [
            self.defined,
            self.modifiable,
            self.format,
            self.retry,
            self.grouping,
            self.patterns,
            self.min,
            self.max,
            self.input,
        ]
    }
}

impl Order for PolicyOrder<'_> {
    ghost ordered = { λ i o. policy_ordered i (policy_held o) };

    ghost call = { λ i o. policy_call i (policy_held o) };

    ghost size = { λ o. 52 + length o.id.now };

    fn is_in_range(&self, issuer: &Issuer<'_>) -> bool {
        let flags = (self.defined <= 1) & (self.modifiable <= 1);
        let names = is_id(self.id) & (((self.puk == 0) | is_id(self.puk_id)) & flags);
        is_ready(issuer.key, issuer.counter, 1) & names
    }

    fn length(&self) -> usize {
        BEHIND_SUBJECT + LENGTH_BYTES + self.id.len() + HANDLE_BYTES + RULES + MAC_BYTES
    }

    fn write(&self, issuer: &Issuer<'_>, out: &mut [u8]) -> usize {
        let k = key_of(issuer.key);
        let rules = self.rules();
        let m = MacKey::new(&k, issuer.counter).policy_under(
            self.id,
            self.puk,
            self.puk_id,
            &rules,
        );
        let mut at = put_head(out, 9, issuer.session);
        at = put_string(out, at, self.id);
        at = put_four(out, at, self.puk);
        at = put(out, at, &rules);
        put(out, at, &m)
    }

    ghost keyed = { λ i o f. f.0.0 };
}

pub fn sks_build_policy<'a>(
    session: u32,
    key: &'a [u8],
    counter: u16,
    id: &'a [u8],
    puk: u32,
    puk_id: &'a [u8],
    defined: u8,
    modifiable: u8,
    format: u8,
    retry: u8,
    grouping: u8,
    patterns: u8,
    min: u8,
    max: u8,
    input: u8,
    out: &mut [u8],
    written: &mut usize,
) -> u8
    ensures { told result written.new out.new ≡ policy_issued (issuer_of session key.now counter) (policy_of id.now puk puk_id.now defined modifiable format retry grouping patterns min max input) out.old }
{
    let issuer = Issuer {
        session,
        key,
        counter,
    };
    let order = PolicyOrder {
        id,
        puk,
        puk_id,
        defined,
        modifiable,
        format,
        retry,
        grouping,
        patterns,
        min,
        max,
        input,
    };
    build(&order, &issuer, out, written)
}

// ---- 10 createKeyEntry

#[derive(Clone, Copy)]
struct KeyOrder<'a> {
    id: &'a [u8],
    entry: &'a [u8],
    seed: &'a [u8],
    policy: u32,
    policy_id: &'a [u8],
    pin_kind: u8,
    pin: &'a [u8],
    caching: u8,
    biometric: u8,
    export: u8,
    deletion: u8,
    usage: u8,
    friendly: &'a [u8],
    algorithm: &'a [u8],
    parameters: &'a [u8],
    endorsed: u16,
}

impl KeyOrder<'_> {
    // No PIN without a policy, and with one the user's or the issuer's.
    fn is_pin(&self) -> bool
        ensures { result ≡ test (pin_ordered (key_held self.now)) }
    {
        let known = (self.pin_kind == USER_PIN) | (self.pin_kind == ISSUER_PIN);
        let none = (self.policy == 0) & (self.pin_kind == NO_PIN);
        none | ((self.policy != 0) & (known & is_id(self.policy_id)))
    }

    fn flags(&self) -> [u8; 5]
        ensures { result ≡ key_flag_bytes (key_held self.now) }
    {
        [
            self.caching,
            self.biometric,
            self.export,
            self.deletion,
            self.usage,
        ]
    }

    // Its call up to PINValue.
    fn put_front(&self, session: u32, out: &mut [u8]) -> usize
        requires { 17 + length self.now.id.now + length self.now.entry.now + length self.now.seed.now + length self.now.pin.now ≤ length out.old }
        ensures { Wrote ((10 ∷ enc4 session) ++ string self.now.id.now ++ string self.now.entry.now ++ string self.now.seed.now ++ enc4 self.now.policy ++ string self.now.pin.now) 0 result out.old out.new }
    {
        let mut at = put_head(out, 10, session);
        at = put_string(out, at, self.id);
        at = put_string(out, at, self.entry);
        at = put_string(out, at, self.seed);
        at = put_four(out, at, self.policy);
        put_string(out, at, self.pin)
    }

    // The fields from the flags up to the MAC, behind whatever stands in front of place k.
    fn put_back(&self, k: usize, out: &mut [u8]) -> usize
        requires { k + 13 + length self.now.friendly.now + length self.now.algorithm.now + length self.now.parameters.now ≤ length out.old }
        ensures { (front before : List ℕ) → Wrote front 0 k before out.old → Wrote (front ++ key_flag_bytes (key_held self.now) ++ string self.now.friendly.now ++ string self.now.algorithm.now ++ string self.now.parameters.now ++ enc2 self.now.endorsed) 0 result before out.new }
    {
        let mut at = put(out, k, &self.flags());
        at = put_string(out, at, self.friendly);
        at = put_string(out, at, self.algorithm);
        at = put_string(out, at, self.parameters);
        put(out, at, &self.endorsed.to_be_bytes())
    }
}

impl Order for KeyOrder<'_> {
    ghost ordered = { λ i o. key_ordered i (key_held o) };

    ghost call = { λ i o. key_call i (key_held o) };

    ghost size = { λ o. 62 + length o.id.now + length o.entry.now + length o.seed.now + length o.pin.now + length o.friendly.now + length o.algorithm.now + length o.parameters.now };

    fn is_in_range(&self, issuer: &Issuer<'_>) -> bool {
        let names = has_length(self.friendly, 0, LONGEST_NAME)
            & has_length(self.parameters, 0, LONGEST_PARAMETERS);
        let pins = has_length(self.pin, 0, LONGEST_PIN_VALUE) & ((self.caching <= 1) & names);
        let rest = has_length(self.seed, 0, LONGEST_SEED) & (self.is_pin() & pins);
        is_ready(issuer.key, issuer.counter, 2) & (is_id(self.id) & rest)
    }

    // The lengths of two slices of any size might not add up in 64 bits.
    fn length(&self) -> usize {
        if LONGEST_CALL < self.entry.len() {
            return self.entry.len();
        }
        let names = self.id.len() + self.entry.len() + self.seed.len() + self.pin.len();
        let texts = self.friendly.len() + self.parameters.len() + self.algorithm.len();
        KEY_FIXED + names + texts
    }

    fn write(&self, issuer: &Issuer<'_>, out: &mut [u8]) -> usize {
        let k = key_of(issuer.key);
        let sets = self.pin_kind == ISSUER_PIN;
        let m = MacKey::new(&k, issuer.counter).key_under(
            self.id,
            self.entry,
            self.seed,
            self.policy,
            self.policy_id,
            sets,
            self.pin,
            &self.flags(),
            self.friendly,
            self.algorithm,
            self.parameters,
        );
        let mut at = self.put_front(issuer.session, out);
        at = self.put_back(at, out);
        put(out, at, &m)
    }

    ghost keyed = { λ i o f. f.0.0 };
}

pub fn sks_build_key<'a>(
    session: u32,
    key: &'a [u8],
    counter: u16,
    id: &'a [u8],
    entry: &'a [u8],
    seed: &'a [u8],
    policy: u32,
    policy_id: &'a [u8],
    pin_kind: u8,
    pin: &'a [u8],
    caching: u8,
    biometric: u8,
    export: u8,
    deletion: u8,
    usage: u8,
    friendly: &'a [u8],
    algorithm: &'a [u8],
    parameters: &'a [u8],
    endorsed: u16,
    out: &mut [u8],
    written: &mut usize,
) -> u8
    ensures { told result written.new out.new ≡ key_issued (issuer_of session key.now counter) (key_of id.now entry.now seed.now policy policy_id.now pin_kind pin.now caching biometric export deletion usage friendly.now algorithm.now parameters.now endorsed) out.old }
{
    let issuer = Issuer {
        session,
        key,
        counter,
    };
    let order = KeyOrder {
        id,
        entry,
        seed,
        policy,
        policy_id,
        pin_kind,
        pin,
        caching,
        biometric,
        export,
        deletion,
        usage,
        friendly,
        algorithm,
        parameters,
        endorsed,
    };
    build(&order, &issuer, out, written)
}

// ---- 12 setCertificatePath

// The key's ID and public key stand in the MAC's data, and not in the call.
#[derive(Clone, Copy)]
struct PathOrder<'a> {
    key_handle: u32,
    key_id: &'a [u8],
    public_key: &'a [u8],
    count: u8,
    certificates: &'a [u8],
}

impl PathOrder<'_> {
    // Certificates as they stand in a call: so many strings, none of them empty, and nothing behind them.
    fn has_certificates(&self) -> bool
        ensures { result ≡ test (certificates_ordered (path_held self.now)) }
    {
        let end = call_fields::behind_strings(self.certificates, 0, self.count);
        let are_filled = call_form::are_filled(self.certificates, 0, self.count);
        (1 <= self.count) & (are_filled & (end == self.certificates.len()))
    }
}

impl Order for PathOrder<'_> {
    ghost ordered = { λ i o. path_ordered i (path_held o) };

    ghost call = { λ i o. path_call i (path_held o) };

    ghost size = { λ o. 42 + length o.certificates.now };

    fn is_in_range(&self, issuer: &Issuer<'_>) -> bool {
        let public_fits = has_length(self.public_key, 1, usize::from(PUBLIC_KEY_BYTES));
        let rest = is_id(self.key_id) & (public_fits & self.has_certificates());
        is_ready(issuer.key, issuer.counter, 1) & rest
    }

    fn length(&self) -> usize {
        CERTIFICATES + self.certificates.len() + MAC_BYTES
    }

    fn write(&self, issuer: &Issuer<'_>, out: &mut [u8]) -> usize {
        let k = key_of(issuer.key);
        let m = MacKey::new(&k, issuer.counter).path_under(
            self.key_id,
            self.public_key,
            self.certificates,
            0,
            self.count,
        );
        let mut at = put_head(out, 12, issuer.session);
        at = put_four(out, at, self.key_handle);
        at = put(out, at, &[self.count]);
        at = put(out, at, self.certificates);
        put(out, at, &m)
    }

    ghost keyed = { λ i o f. f.0.0 };
}

pub fn sks_build_path<'a>(
    session: u32,
    key: &'a [u8],
    counter: u16,
    key_handle: u32,
    key_id: &'a [u8],
    public_key: &'a [u8],
    count: u8,
    certificates: &'a [u8],
    out: &mut [u8],
    written: &mut usize,
) -> u8
    ensures { told result written.new out.new ≡ path_issued (issuer_of session key.now counter) (path_of key_handle key_id.now public_key.now count certificates.now) out.old }
{
    let issuer = Issuer {
        session,
        key,
        counter,
    };
    let order = PathOrder {
        key_handle,
        key_id,
        public_key,
        count,
        certificates,
    };
    build(&order, &issuer, out, written)
}

// ---- 50 postDeleteKey, 51 postUnlockKey

#[derive(Clone, Copy)]
struct PostOrder<'a> {
    method: u8,
    key_handle: u32,
    authorization: &'a [u8],
}

impl Order for PostOrder<'_> {
    ghost ordered = { λ i o. post_ordered i (post_held o) };

    ghost call = { λ i o. post_call i (post_held o) };

    ghost size = { λ o. 43 + length o.authorization.now };

    fn is_in_range(&self, issuer: &Issuer<'_>) -> bool {
        let known = (self.method == DELETES) | (self.method == UNLOCKS);
        let rest = known & has_length(self.authorization, 1, LONGEST_AUTHORIZATION);
        is_ready(issuer.key, issuer.counter, 1) & rest
    }

    fn length(&self) -> usize {
        BEHIND_SUBJECT + HANDLE_BYTES + LENGTH_BYTES + self.authorization.len() + MAC_BYTES
    }

    fn write(&self, issuer: &Issuer<'_>, out: &mut [u8]) -> usize {
        let k = key_of(issuer.key);
        let m = MacKey::new(&k, issuer.counter).post_under(self.method, self.authorization);
        let mut at = put_head(out, self.method, issuer.session);
        at = put_four(out, at, self.key_handle);
        at = put_string(out, at, self.authorization);
        put(out, at, &m)
    }

    ghost keyed = { λ i o f. f.0.0 };
}

pub fn sks_build_post<'a>(
    session: u32,
    key: &'a [u8],
    counter: u16,
    method: u8,
    key_handle: u32,
    authorization: &'a [u8],
    out: &mut [u8],
    written: &mut usize,
) -> u8
    ensures { told result written.new out.new ≡ post_issued (issuer_of session key.now counter) (post_of method key_handle authorization.now) out.old }
{
    let issuer = Issuer {
        session,
        key,
        counter,
    };
    let order = PostOrder {
        method,
        key_handle,
        authorization,
    };
    build(&order, &issuer, out, written)
}

// ---- the two attestations, each checked with the counter of the call that it answers

pub fn sks_check_key<'a>(
    key: &'a [u8],
    counter: u16,
    id: &'a [u8],
    public_key: &'a [u8],
    attestation: &'a [u8],
) -> bool
    ensures { result ≡ test (key_attests key.now counter id.now public_key.now attestation.now) }
{
    if !is_ready(key, counter, 1) {
        return false;
    }
    if attestation.len() != MAC_BYTES {
        return false;
    }
    let k = key_of(key);
    let made = MacKey::new(&k, counter).attested_key_under(id, public_key);
    hmac::is_same(attestation, &made)
}

pub fn sks_check_close<'a>(
    key: &'a [u8],
    counter: u16,
    nonce: &'a [u8],
    attestation: &'a [u8],
) -> bool
    ensures { result ≡ test (close_attests key.now counter nonce.now attestation.now) }
{
    if !is_ready(key, counter, 1) {
        return false;
    }
    if attestation.len() != MAC_BYTES {
        return false;
    }
    let k = key_of(key);
    let made = MacKey::new(&k, counter).attested_close_under(nonce);
    hmac::is_same(attestation, &made)
}
