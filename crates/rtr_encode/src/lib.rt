// Encoding one PDU into a lent buffer, in the order of the Rust's RtrEncode impls: one function for each kind and one over all. Payload places refer
// to a lent slice. Every call takes every input; a refusal writes nothing, and bytes after the encoding stay.
#![tactic(auto)]

ghost use Rattle.std.specs.Prelude.{◌≡◌, [], ◌∷◌, ◌++◌, ◌+◌, ◌≤◌, ◌<◌, length, take, drop};
ghost use Rattle.rtr_codec.specs.Reading.{in_use};
ghost use Rattle.rtr_encode.specs.Encode.{bytes_of, encode};
ghost use Rattle.rtr_encode.specs.Private.{end_of_data, header_bytes, key_bytes, report_bytes, last_checks};
ghost use Rattle.rtr_encode.specs.Answers.{leaves, encode_refusal, number_of};
ghost use Rattle.rtr_base.specs.Over.{over};

use rtr_models::*;
use std::simd::Simd;

// Why nothing is written.
#[derive(Clone, Copy)]
pub enum EncodeError {
    PlaceOutside,
    InvalidUtf8,
    TooLong,
    OutputShort { needed: usize },
}

impl From<PlaceOutside> for EncodeError {
    ghost use Rattle.rtr_encode.specs.declared.EncodeError.{EncodeError};

    ghost from_gives = { λ _ e. e ≡ EncodeError.PlaceOutside };

    fn from(_refusal: PlaceOutside) -> EncodeError {
        EncodeError::PlaceOutside
    }
}

impl EncodeError {
    // Document 01's number of it.
    pub fn number(self) -> u8
        ensures { result ≡ number_of (encode_refusal self) }
    {
        match self {
            EncodeError::PlaceOutside => 11,
            EncodeError::InvalidUtf8 => 8,
            EncodeError::TooLong => 10,
            EncodeError::OutputShort { needed: _ } => 9,
        }
    }
}

// ---- Bytes

// The first N bytes of a part, all loaded before any is stored.
fn put_block<const N: usize>(out: &mut [u8], at: usize, part: &[u8])
    requires { (N ≤ length part.now) × (at + N ≤ length out.old) }
    ensures { out.new ≡ over out.old at (take N part.now) }
{
    Simd::<u8, N>::from_slice(part).copy_to_slice(&mut out[at..]);
}

// Two functions: no trait gives `to_be_bytes` to a type parameter.
fn put16(out: &mut [u8], at: usize, n: u16)
    requires { at + 2 ≤ length out.old }
    ensures { out.new ≡ over out.old at (bytes_of 2 n) }
{
    put_block::<2>(out, at, &n.to_be_bytes());
}

fn put32(out: &mut [u8], at: usize, n: u32)
    requires { at + 4 ≤ length out.old }
    ensures { out.new ≡ over out.old at (bytes_of 4 n) }
{
    put_block::<4>(out, at, &n.to_be_bytes());
}

// The first eight bytes: what stands in bytes 2 and 3 is the session, the error code, or zero.
fn put_header(out: &mut [u8], version: RtrProtocolVersion, pdu_type: u8, session: u16, whole: u32)
    requires { 8 ≤ length out.old }
    ensures { out.new ≡ over out.old 0 (header_bytes version pdu_type session whole) }
{
    out[0] = version.to_u8();
    out[1] = pdu_type;
    put16(out, 2, session);
    put32(out, 4, whole);
}

// ---- Encoding, one function for each kind

// Refusal 9.
fn short(needed: usize) -> Result<usize, EncodeError>
    ensures { result ≡ Err (EncodeError.OutputShort needed) }
{
    Err(EncodeError::OutputShort { needed })
}

// A PDU that is its header alone.
fn encode_bare(
    version: RtrProtocolVersion,
    pdu_type: u8,
    session: u16,
    out: &mut [u8],
) -> Result<usize, EncodeError>
    ensures { leaves result out.new ≡ last_checks 8 (header_bytes version pdu_type session 8) out.old }
{
    if out.len() < 8 {
        return short(8);
    }
    put_header(out, version, pdu_type, session, 8);
    Ok(8)
}

// A header and a serial number.
fn encode_serial(
    version: RtrProtocolVersion,
    pdu_type: u8,
    session: u16,
    serial_number: u32,
    out: &mut [u8],
) -> Result<usize, EncodeError>
    ensures { leaves result out.new ≡ last_checks 12 (header_bytes version pdu_type session 12 ++ bytes_of 4 serial_number) out.old }
{
    if out.len() < 12 {
        return short(12);
    }
    put_header(out, version, pdu_type, session, 12);
    put32(out, 8, serial_number);
    Ok(12)
}

pub fn encode_serial_notify(pdu: RtrSerialNotify, out: &mut [u8]) -> Result<usize, EncodeError>
    ensures { leaves result out.new ≡ encode in_use (RtrPdu.SerialNotify pdu) [] out.old }
{
    encode_serial(pdu.version, 0, pdu.session_id, pdu.serial_number, out)
}

pub fn encode_serial_query(pdu: RtrSerialQuery, out: &mut [u8]) -> Result<usize, EncodeError>
    ensures { leaves result out.new ≡ encode in_use (RtrPdu.SerialQuery pdu) [] out.old }
{
    encode_serial(pdu.version, 1, pdu.session_id, pdu.serial_number, out)
}

pub fn encode_reset_query(pdu: RtrResetQuery, out: &mut [u8]) -> Result<usize, EncodeError>
    ensures { leaves result out.new ≡ encode in_use (RtrPdu.ResetQuery pdu) [] out.old }
{
    encode_bare(pdu.version, 2, 0, out)
}

pub fn encode_cache_response(pdu: RtrCacheResponse, out: &mut [u8]) -> Result<usize, EncodeError>
    ensures { leaves result out.new ≡ encode in_use (RtrPdu.CacheResponse pdu) [] out.old }
{
    encode_bare(pdu.version, 3, pdu.session_id, out)
}

// Bytes 8 to 11 of a prefix: prefix lengths are not tested, as in the Rust. One by one: as a block of an array's four a prefix takes 17 % more instructions.
fn put_lengths(out: &mut [u8], flags: u8, prefix_length: u8, max_length: u8)
    requires { 12 ≤ length out.old }
    ensures { out.new ≡ over out.old 8 (bytes_of 1 flags ++ bytes_of 1 prefix_length ++ bytes_of 1 max_length ++ (0 ∷ [])) }
{
    out[8] = flags;
    out[9] = prefix_length;
    out[10] = max_length;
    out[11] = 0;
}

pub fn encode_ipv4_prefix(pdu: RtrIPv4Prefix, out: &mut [u8]) -> Result<usize, EncodeError>
    ensures { leaves result out.new ≡ encode in_use (RtrPdu.IPv4Prefix pdu) [] out.old }
{
    if out.len() < 20 {
        return short(20);
    }
    put_header(out, pdu.version, 4, 0, 20);
    put_lengths(out, pdu.flags, pdu.prefix_length, pdu.max_length);
    put32(out, 12, pdu.prefix);
    put32(out, 16, pdu.asn);
    Ok(20)
}

pub fn encode_ipv6_prefix(pdu: RtrIPv6Prefix, out: &mut [u8]) -> Result<usize, EncodeError>
    ensures { leaves result out.new ≡ encode in_use (RtrPdu.IPv6Prefix pdu) [] out.old }
{
    if out.len() < 32 {
        return short(32);
    }
    let prefix = pdu.prefix;
    put_header(out, pdu.version, 6, 0, 32);
    put_lengths(out, pdu.flags, pdu.prefix_length, pdu.max_length);
    put32(out, 12, prefix.w0);
    put32(out, 16, prefix.w1);
    put32(out, 20, prefix.w2);
    put32(out, 24, prefix.w3);
    put32(out, 28, pdu.asn);
    Ok(32)
}

fn encode_end_of_data_v1(
    session_id: u16,
    serial_number: u32,
    refresh: u32,
    retry: u32,
    expire: u32,
    out: &mut [u8],
) -> Result<usize, EncodeError>
    ensures { leaves result out.new ≡ encode in_use (RtrPdu.EndOfData (end_of_data session_id serial_number refresh retry expire)) [] out.old }
{
    if out.len() < 24 {
        return short(24);
    }
    put_header(out, RtrProtocolVersion::V1, 7, session_id, 24);
    put32(out, 8, serial_number);
    put32(out, 12, refresh);
    put32(out, 16, retry);
    put32(out, 20, expire);
    Ok(24)
}

// Version 0 drops the intervals; in version 1 an absent one is written as its default.
pub fn encode_end_of_data(pdu: RtrEndOfData, out: &mut [u8]) -> Result<usize, EncodeError>
    ensures { leaves result out.new ≡ encode in_use (RtrPdu.EndOfData pdu) [] out.old }
{
    match pdu.version {
        RtrProtocolVersion::V0 => {
            encode_serial(
                RtrProtocolVersion::V0,
                7,
                pdu.session_id,
                pdu.serial_number,
                out,
            )
        }
        RtrProtocolVersion::V1 => {
            let refresh = pdu.refresh_interval_or_default();
            let retry = pdu.retry_interval_or_default();
            let expire = pdu.expire_interval_or_default();
            encode_end_of_data_v1(
                pdu.session_id,
                pdu.serial_number,
                refresh,
                retry,
                expire,
                out,
            )
        }
    }
}

pub fn encode_cache_reset(pdu: RtrCacheReset, out: &mut [u8]) -> Result<usize, EncodeError>
    ensures { leaves result out.new ≡ encode in_use (RtrPdu.CacheReset pdu) [] out.old }
{
    encode_bare(pdu.version, 8, 0, out)
}

// ---- Payloads

// Block by block; the last one ends with the part, and may lie over the one before. By 16: of a block of 32 the compiler stores the second half first, and a long part takes two thirds more time.
fn put_long(out: &mut [u8], at: usize, part: &[u8])
    requires { (32 ≤ length part.now) × (at + length part.now ≤ length out.old) }
    ensures { out.new ≡ over out.old at part.now }
{
    let last = part.len() - 32;
    for i in (0..last).step_by(16) {
        put_block::<16>(out, at + i, &part[i..]);
    }
    put_block::<32>(out, at + last, &part[last..]);
}

// One by one. Not by `copy_from_slice`: it calls C's memmove, and the library for hosts is to need memset alone.
fn put_few(out: &mut [u8], at: usize, part: &[u8])
    requires { at + length part.now ≤ length out.old }
    ensures { out.new ≡ over out.old at part.now }
{
    for (i, byte) in part.iter().enumerate() {
        out[at + i] = *byte;
    }
}

// A part of N to 2N bytes, as a first block and a last one, which may lie over each other.
fn put_ends<const N: usize>(out: &mut [u8], at: usize, part: &[u8])
    requires { (N ≤ length part.now) × (length part.now ≤ N + N) × (at + length part.now ≤ length out.old) }
    ensures { out.new ≡ over out.old at part.now }
{
    let last = part.len() - N;
    put_block::<N>(out, at, part);
    put_block::<N>(out, at + last, &part[last..]);
}

// Copies a part of a slice behind what is written. Not in line: where it is, its callers keep more in memory, 3 % of a prefix's encoding.
#[inline(never)]
fn put_part(out: &mut [u8], at: usize, part: &[u8])
    requires { at + length part.now ≤ length out.old }
    ensures { out.new ≡ over out.old at part.now }
{
    let n = part.len();
    if n > 64 {
        put_long(out, at, part);
    } else if n > 32 {
        put_ends::<32>(out, at, part);
    } else if n >= 16 {
        put_ends::<16>(out, at, part);
    } else if n >= 8 {
        put_ends::<8>(out, at, part);
    } else if n >= 4 {
        put_ends::<4>(out, at, part);
    } else {
        put_few(out, at, part);
    }
}

// Bytes 8 and 9 of a key.
fn put_flags(out: &mut [u8], flags: u8)
    requires { 10 ≤ length out.old }
    ensures { out.new ≡ over out.old 8 (bytes_of 1 flags ++ (0 ∷ [])) }
{
    out[8] = flags;
    out[9] = 0;
}

// The key's bytes, once all checks have passed: a version 0 key is written too, as in the Rust.
fn put_router_key(
    version: RtrProtocolVersion,
    flags: u8,
    identifier: &[u8],
    asn: u32,
    info: &[u8],
    whole: u32,
    out: &mut [u8],
)
    requires { (length identifier.now ≡ 20) × ((34 + length info.now ≡ whole) × (whole ≤ length out.old)) }
    ensures { out.new ≡ over out.old 0 (key_bytes version flags identifier.now asn info.now whole) }
{
    put_header(out, version, 9, 0, whole);
    put_flags(out, flags);
    put_block::<16>(out, 10, identifier);
    put_block::<4>(out, 26, &identifier[16..]);
    put32(out, 30, asn);
    put_part(out, 34, info);
}

// The report's bytes, once all checks have passed.
fn put_error_report(
    version: RtrProtocolVersion,
    code: u16,
    copy: &[u8],
    text: &[u8],
    whole: u32,
    out: &mut [u8],
)
    requires { (16 + length copy.now + length text.now ≡ whole) × (whole ≤ length out.old) }
    ensures { out.new ≡ over out.old 0 (report_bytes version code copy.now text.now whole) }
{
    let copy_len = copy.len();
    put_header(out, version, 10, code, whole);
    put32(out, 8, copy_len as u32);
    put_part(out, 12, copy);
    put32(out, 12 + copy_len, text.len() as u32);
    put_part(out, 16 + copy_len, text);
}

// ---- Encoding, the kinds with payloads: 11, 8, 10, 9, in this order

// The places lie in the slice: lengths are next.
fn encode_key_parts(
    version: RtrProtocolVersion,
    flags: u8,
    identifier: &[u8],
    asn: u32,
    info: &[u8],
    out: &mut [u8],
) -> Result<usize, EncodeError>
    requires { length identifier.now ≡ 20 }
    ensures { leaves result out.new ≡ last_checks (34 + length info.now) (key_bytes version flags identifier.now asn info.now (34 + length info.now)) out.old }
{
    let whole = 34 + info.len();
    if whole > 4294967295 {
        return Err(EncodeError::TooLong);
    }
    if out.len() < whole {
        return short(whole);
    }
    put_router_key(version, flags, identifier, asn, info, whole as u32, out);
    Ok(whole)
}

pub fn encode_router_key(
    pdu: RtrRouterKey,
    input: &[u8],
    out: &mut [u8],
) -> Result<usize, EncodeError>
    ensures { leaves result out.new ≡ encode in_use (RtrPdu.RouterKey pdu) input.now out.old }
{
    pdu.subject_key_identifier_answer(input)?;
    pdu.subject_public_key_info_answer(input)?;
    encode_key_parts(
        pdu.version,
        pdu.flags,
        pdu.subject_key_identifier_part(input),
        pdu.asn,
        pdu.subject_public_key_info_part(input),
        out,
    )
}

// The text is UTF-8: lengths are next. Two lengths of parts can wrap a sum, so each is tested before.
fn encode_report_parts(
    version: RtrProtocolVersion,
    code: u16,
    copy: &[u8],
    text: &[u8],
    out: &mut [u8],
) -> Result<usize, EncodeError>
    ensures { leaves result out.new ≡ last_checks (16 + length copy.now + length text.now) (report_bytes version code copy.now text.now (16 + length copy.now + length text.now)) out.old }
{
    let copy_len = copy.len();
    let text_len = text.len();
    if copy_len > 4294967295 {
        return Err(EncodeError::TooLong);
    }
    if text_len > 4294967295 {
        return Err(EncodeError::TooLong);
    }
    let whole = 16 + copy_len + text_len;
    if whole > 4294967295 {
        return Err(EncodeError::TooLong);
    }
    if out.len() < whole {
        return short(whole);
    }
    put_error_report(version, code, copy, text, whole as u32, out);
    Ok(whole)
}

pub fn encode_error_report(
    pdu: RtrErrorReport,
    input: &[u8],
    out: &mut [u8],
) -> Result<usize, EncodeError>
    ensures { leaves result out.new ≡ encode in_use (RtrPdu.ErrorReport pdu) input.now out.old }
{
    pdu.erroneous_pdu_answer(input)?;
    pdu.error_text_answer(input)?;
    let text = pdu.error_text_part(input);
    if !rtr_text::is_well_formed(text) {
        return Err(EncodeError::InvalidUtf8);
    }
    encode_report_parts(
        pdu.version,
        pdu.error_code.to_u16(),
        pdu.erroneous_pdu_part(input),
        text,
        out,
    )
}

// ---- Encoding any kind

// Any PDU; the slice is looked at only for payloads.
pub fn encode(pdu: RtrPdu, input: &[u8], out: &mut [u8]) -> Result<usize, EncodeError>
    ensures { leaves result out.new ≡ encode in_use pdu input.now out.old }
{
    match pdu {
        RtrPdu::SerialNotify(p) => encode_serial_notify(p, out),
        RtrPdu::SerialQuery(p) => encode_serial_query(p, out),
        RtrPdu::ResetQuery(p) => encode_reset_query(p, out),
        RtrPdu::CacheResponse(p) => encode_cache_response(p, out),
        RtrPdu::IPv4Prefix(p) => encode_ipv4_prefix(p, out),
        RtrPdu::IPv6Prefix(p) => encode_ipv6_prefix(p, out),
        RtrPdu::EndOfData(p) => encode_end_of_data(p, out),
        RtrPdu::CacheReset(p) => encode_cache_reset(p, out),
        RtrPdu::RouterKey(p) => encode_router_key(p, input, out),
        RtrPdu::ErrorReport(p) => encode_error_report(p, input, out),
    }
}
