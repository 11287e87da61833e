// The issuer's half for C, where a slice is passed as a pointer, then a length: each export calls the function of its name in `issuer`, and
// promises what it does.

#![tactic(auto)]

ghost use Rattle.std.specs.Prelude.{◌≡◌};
ghost use Rattle.paper.specs.Form.{test};
ghost use Rattle.paper.specs.Issuing.{key_attests, close_attests};
ghost use Rattle.issuer.specs.Told.{told, issuer_of, close_of, puk_of, policy_of, key_of, path_of, post_of, close_issued, puk_issued, policy_issued, key_issued, path_issued, post_issued};

#[unsafe(no_mangle)]
pub extern "C" fn sks_build_close<'a>(
    session: u32,
    key: &'a [u8],
    counter: u16,
    client: &'a [u8],
    nonce: &'a [u8],
    out: &mut [u8],
    written: &mut usize,
) -> u8
    ensures { told result written.new out.new ≡ close_issued (issuer_of session key.now counter) (close_of client.now nonce.now) out.old }
{
    issuer::sks_build_close(session, key, counter, client, nonce, out, written)
}

#[unsafe(no_mangle)]
pub extern "C" fn sks_build_puk<'a>(
    session: u32,
    key: &'a [u8],
    counter: u16,
    id: &'a [u8],
    encrypted: &'a [u8],
    format: u8,
    retry: u8,
    out: &mut [u8],
    written: &mut usize,
) -> u8
    ensures { told result written.new out.new ≡ puk_issued (issuer_of session key.now counter) (puk_of id.now encrypted.now format retry) out.old }
{
    issuer::sks_build_puk(
        session, key, counter, id, encrypted, format, retry, out, written,
    )
}

#[unsafe(no_mangle)]
pub extern "C" fn sks_build_policy<'a>(
    session: u32,
    key: &'a [u8],
    counter: u16,
    id: &'a [u8],
    puk: u32,
    puk_id: &'a [u8],
    defined: u8,
    modifiable: u8,
    format: u8,
    retry: u8,
    grouping: u8,
    patterns: u8,
    min: u8,
    max: u8,
    input: u8,
    out: &mut [u8],
    written: &mut usize,
) -> u8
    ensures { told result written.new out.new ≡ policy_issued (issuer_of session key.now counter) (policy_of id.now puk puk_id.now defined modifiable format retry grouping patterns min max input) out.old }
{
    issuer::sks_build_policy(
        session, key, counter, id, puk, puk_id, defined, modifiable, format, retry, grouping,
        patterns, min, max, input, out, written,
    )
}

#[unsafe(no_mangle)]
pub extern "C" fn sks_build_key<'a>(
    session: u32,
    key: &'a [u8],
    counter: u16,
    id: &'a [u8],
    entry: &'a [u8],
    seed: &'a [u8],
    policy: u32,
    policy_id: &'a [u8],
    pin_kind: u8,
    pin: &'a [u8],
    caching: u8,
    biometric: u8,
    export: u8,
    deletion: u8,
    usage: u8,
    friendly: &'a [u8],
    algorithm: &'a [u8],
    parameters: &'a [u8],
    endorsed: u16,
    out: &mut [u8],
    written: &mut usize,
) -> u8
    ensures { told result written.new out.new ≡ key_issued (issuer_of session key.now counter) (key_of id.now entry.now seed.now policy policy_id.now pin_kind pin.now caching biometric export deletion usage friendly.now algorithm.now parameters.now endorsed) out.old }
{
    issuer::sks_build_key(
        session, key, counter, id, entry, seed, policy, policy_id, pin_kind, pin, caching,
        biometric, export, deletion, usage, friendly, algorithm, parameters, endorsed, out,
        written,
    )
}

#[unsafe(no_mangle)]
pub extern "C" fn sks_build_path<'a>(
    session: u32,
    key: &'a [u8],
    counter: u16,
    key_handle: u32,
    key_id: &'a [u8],
    public_key: &'a [u8],
    count: u8,
    certificates: &'a [u8],
    out: &mut [u8],
    written: &mut usize,
) -> u8
    ensures { told result written.new out.new ≡ path_issued (issuer_of session key.now counter) (path_of key_handle key_id.now public_key.now count certificates.now) out.old }
{
    issuer::sks_build_path(
        session,
        key,
        counter,
        key_handle,
        key_id,
        public_key,
        count,
        certificates,
        out,
        written,
    )
}

#[unsafe(no_mangle)]
pub extern "C" fn sks_build_post<'a>(
    session: u32,
    key: &'a [u8],
    counter: u16,
    method: u8,
    key_handle: u32,
    authorization: &'a [u8],
    out: &mut [u8],
    written: &mut usize,
) -> u8
    ensures { told result written.new out.new ≡ post_issued (issuer_of session key.now counter) (post_of method key_handle authorization.now) out.old }
{
    issuer::sks_build_post(
        session,
        key,
        counter,
        method,
        key_handle,
        authorization,
        out,
        written,
    )
}

#[unsafe(no_mangle)]
pub extern "C" fn sks_check_key<'a>(
    key: &'a [u8],
    counter: u16,
    id: &'a [u8],
    public_key: &'a [u8],
    attestation: &'a [u8],
) -> bool
    ensures { result ≡ test (key_attests key.now counter id.now public_key.now attestation.now) }
{
    issuer::sks_check_key(key, counter, id, public_key, attestation)
}

#[unsafe(no_mangle)]
pub extern "C" fn sks_check_close<'a>(
    key: &'a [u8],
    counter: u16,
    nonce: &'a [u8],
    attestation: &'a [u8],
) -> bool
    ensures { result ≡ test (close_attests key.now counter nonce.now attestation.now) }
{
    issuer::sks_check_close(key, counter, nonce, attestation)
}
