// Reading one PDU from any bytes, in the order of the Rust's src/parser/rpki/rtr.rs: parse_rtr_pdu takes every slice, answers as
// document 01's order of checks asks, and copies nothing: payloads are handed over by place. The promise is an equation with `read` of specs/, at the reading
// in use; no contract can say how long it takes.
#![tactic(auto)]

ghost use Rattle.std.specs.Prelude.{true, ◌≡◌, ◌+◌, ◌≤◌, ◌<◌, length};
ghost use Rattle.rtr_codec.specs.Bytes.{number};
ghost use Rattle.rtr_codec.specs.Reading.{crate, in_use};
ghost use Rattle.rtr_codec.specs.Read.{read, needed, header_length, read_serial_notify, read_serial_query, read_reset_query, read_cache_response, read_ipv4_prefix, read_ipv6_prefix, read_end_of_data, read_cache_reset, read_router_key, capped, read_text, read_encapsulated, read_error_report, read_as, read_typed};
ghost use Rattle.rtr_models.specs.Codes.{type_found};
ghost use Rattle.rtr_codec.specs.Answers.{verdict, refusal, number_of};
ghost use Rattle.rtr_codec.specs.Private.{Framed, PlainPrefix};
ghost use Rattle.rtr_codec.specs.Run.{read_at, run_said};

use rtr_models::*;

// ---- Answers

// Why a PDU is not read; `number` gives document 01's number of it.
#[derive(Clone, Copy, PartialEq, Eq)]
pub enum RtrError {
    IncompletePdu {
        available: usize,
        needed: usize,
    },
    InvalidPduType(u8),
    InvalidProtocolVersion(u8),
    InvalidErrorCode(u16),
    InvalidLength {
        expected: u32,
        actual: u32,
        pdu_type: u8,
    },
    InvalidPrefixLength {
        prefix_len: u8,
        max_len: u8,
        max_allowed: u8,
    },
    InvalidUtf8,
    RouterKeyInV0,
}

impl RtrError {
    // Document 01's number of it.
    pub fn number(self) -> u8
        ensures { result ≡ number_of (refusal self) }
    {
        match self {
            RtrError::IncompletePdu {
                available: _,
                needed: _,
            } => 1,
            RtrError::InvalidPduType(_) => 3,
            RtrError::InvalidProtocolVersion(_) => 2,
            RtrError::InvalidErrorCode(_) => 7,
            RtrError::InvalidLength {
                expected: _,
                actual: _,
                pdu_type: _,
            } => 4,
            RtrError::InvalidPrefixLength {
                prefix_len: _,
                max_len: _,
                max_allowed: _,
            } => 6,
            RtrError::InvalidUtf8 => 8,
            RtrError::RouterKeyInV0 => 5,
        }
    }
}

// ---- Lengths

pub const RTR_HEADER_LEN: usize = 8;

pub const RTR_SERIAL_NOTIFY_LEN: u32 = 12;

pub const RTR_SERIAL_QUERY_LEN: u32 = 12;

pub const RTR_RESET_QUERY_LEN: u32 = 8;

pub const RTR_CACHE_RESPONSE_LEN: u32 = 8;

pub const RTR_IPV4_PREFIX_LEN: u32 = 20;

pub const RTR_IPV6_PREFIX_LEN: u32 = 32;

pub const RTR_END_OF_DATA_V0_LEN: u32 = 12;

pub const RTR_END_OF_DATA_V1_LEN: u32 = 24;

pub const RTR_CACHE_RESET_LEN: u32 = 8;

pub const RTR_ROUTER_KEY_MIN_LEN: u32 = 34;

pub const RTR_ERROR_REPORT_MIN_LEN: u32 = 16;

// ---- Numbers on the wire

fn be8(input: &[u8], at: usize) -> u8
    requires { at < length input.now }
    ensures { result ≡ number input.now at 1 }
{
    input[at]
}

fn be16(input: &[u8], at: usize) -> u16
    requires { at + 2 ≤ length input.now }
    ensures { result ≡ number input.now at 2 }
{
    u16::from_be_bytes([input[at], input[at + 1]])
}

fn be32(input: &[u8], at: usize) -> u32
    requires { at + 4 ≤ length input.now }
    ensures { result ≡ number input.now at 4 }
{
    u32::from_be_bytes([input[at], input[at + 1], input[at + 2], input[at + 3]])
}

// ---- Reading, one function for each kind: `actual` is the header's length, and so many bytes are there

// Refusal 4.
fn invalid_length(expected: u32, actual: u32, pdu_type: u8) -> RtrError
    ensures { result ≡ RtrError.InvalidLength expected actual pdu_type }
{
    RtrError::InvalidLength {
        expected,
        actual,
        pdu_type,
    }
}

// Refusal 6.
fn invalid_prefix_length(prefix_len: u8, max_len: u8, max_allowed: u8) -> RtrError
    ensures { result ≡ RtrError.InvalidPrefixLength prefix_len max_len max_allowed }
{
    RtrError::InvalidPrefixLength {
        prefix_len,
        max_len,
        max_allowed,
    }
}

// Type 0: session and serial.
fn parse_serial_notify(
    input: &[u8],
    version: RtrProtocolVersion,
    actual: u32,
) -> Result<(RtrPdu, usize), RtrError>
    requires { Framed actual input.now }
    ensures { verdict result ≡ read_serial_notify version input.now }
{
    if actual != RTR_SERIAL_NOTIFY_LEN {
        return Err(invalid_length(RTR_SERIAL_NOTIFY_LEN, actual, 0));
    }
    let session_id = be16(input, 2);
    let serial_number = be32(input, 8);
    let pdu = RtrPdu::SerialNotify(RtrSerialNotify {
        version,
        session_id,
        serial_number,
    });
    Ok((pdu, actual as usize))
}

// Type 1: session and serial.
fn parse_serial_query(
    input: &[u8],
    version: RtrProtocolVersion,
    actual: u32,
) -> Result<(RtrPdu, usize), RtrError>
    requires { Framed actual input.now }
    ensures { verdict result ≡ read_serial_query version input.now }
{
    if actual != RTR_SERIAL_QUERY_LEN {
        return Err(invalid_length(RTR_SERIAL_QUERY_LEN, actual, 1));
    }
    let session_id = be16(input, 2);
    let serial_number = be32(input, 8);
    let pdu = RtrPdu::SerialQuery(RtrSerialQuery {
        version,
        session_id,
        serial_number,
    });
    Ok((pdu, actual as usize))
}

// Type 2: the header alone.
fn parse_reset_query(
    input: &[u8],
    version: RtrProtocolVersion,
    actual: u32,
) -> Result<(RtrPdu, usize), RtrError>
    requires { Framed actual input.now }
    ensures { verdict result ≡ read_reset_query version input.now }
{
    if actual != RTR_RESET_QUERY_LEN {
        return Err(invalid_length(RTR_RESET_QUERY_LEN, actual, 2));
    }
    let pdu = RtrPdu::ResetQuery(RtrResetQuery { version });
    Ok((pdu, actual as usize))
}

// Type 3: the session alone.
fn parse_cache_response(
    input: &[u8],
    version: RtrProtocolVersion,
    actual: u32,
) -> Result<(RtrPdu, usize), RtrError>
    requires { Framed actual input.now }
    ensures { verdict result ≡ read_cache_response version input.now }
{
    if actual != RTR_CACHE_RESPONSE_LEN {
        return Err(invalid_length(RTR_CACHE_RESPONSE_LEN, actual, 3));
    }
    let session_id = be16(input, 2);
    let pdu = RtrPdu::CacheResponse(RtrCacheResponse {
        version,
        session_id,
    });
    Ok((pdu, actual as usize))
}

// Type 4's numbers, once its lengths are in rule.
fn ipv4_fields(input: &[u8], version: RtrProtocolVersion) -> Result<(RtrPdu, usize), RtrError>
    requires { Framed 20 input.now × ((number input.now 9 1 ≤ number input.now 10 1) × (number input.now 10 1 ≤ 32)) }
    ensures { verdict result ≡ read_ipv4_prefix version input.now }
{
    let prefix_length = be8(input, 9);
    let max_length = be8(input, 10);
    let flags = be8(input, 8);
    let prefix = be32(input, 12);
    let asn = be32(input, 16);
    let pdu = RtrPdu::IPv4Prefix(RtrIPv4Prefix {
        version,
        flags,
        prefix_length,
        max_length,
        prefix,
        asn,
    });
    Ok((pdu, 20))
}

// Type 4: byte 11 is not looked at.
fn parse_ipv4_prefix(
    input: &[u8],
    version: RtrProtocolVersion,
    actual: u32,
) -> Result<(RtrPdu, usize), RtrError>
    requires { Framed actual input.now }
    ensures { verdict result ≡ read_ipv4_prefix version input.now }
{
    if actual != RTR_IPV4_PREFIX_LEN {
        return Err(invalid_length(RTR_IPV4_PREFIX_LEN, actual, 4));
    }
    let prefix_length = be8(input, 9);
    let max_length = be8(input, 10);
    if prefix_length > max_length {
        return Err(invalid_prefix_length(prefix_length, max_length, 32));
    }
    if max_length > 32 {
        return Err(invalid_prefix_length(prefix_length, max_length, 32));
    }
    ipv4_fields(input, version)
}

// Type 6's numbers, once its lengths are in rule.
fn ipv6_fields(input: &[u8], version: RtrProtocolVersion) -> Result<(RtrPdu, usize), RtrError>
    requires { Framed 32 input.now × ((number input.now 9 1 ≤ number input.now 10 1) × (number input.now 10 1 ≤ 128)) }
    ensures { verdict result ≡ read_ipv6_prefix version input.now }
{
    let prefix_length = be8(input, 9);
    let max_length = be8(input, 10);
    let flags = be8(input, 8);
    let w0 = be32(input, 12);
    let w1 = be32(input, 16);
    let w2 = be32(input, 20);
    let w3 = be32(input, 24);
    let asn = be32(input, 28);
    let prefix = Ipv6Addr { w0, w1, w2, w3 };
    let pdu = RtrPdu::IPv6Prefix(RtrIPv6Prefix {
        version,
        flags,
        prefix_length,
        max_length,
        prefix,
        asn,
    });
    Ok((pdu, 32))
}

// Type 6: byte 11 is not looked at.
fn parse_ipv6_prefix(
    input: &[u8],
    version: RtrProtocolVersion,
    actual: u32,
) -> Result<(RtrPdu, usize), RtrError>
    requires { Framed actual input.now }
    ensures { verdict result ≡ read_ipv6_prefix version input.now }
{
    if actual != RTR_IPV6_PREFIX_LEN {
        return Err(invalid_length(RTR_IPV6_PREFIX_LEN, actual, 6));
    }
    let prefix_length = be8(input, 9);
    let max_length = be8(input, 10);
    if prefix_length > max_length {
        return Err(invalid_prefix_length(prefix_length, max_length, 128));
    }
    if max_length > 128 {
        return Err(invalid_prefix_length(prefix_length, max_length, 128));
    }
    ipv6_fields(input, version)
}

// Type 7 in version 0: session and serial.
fn parse_end_of_data_v0(input: &[u8], actual: u32) -> Result<(RtrPdu, usize), RtrError>
    requires { Framed actual input.now }
    ensures { verdict result ≡ read_end_of_data RtrProtocolVersion.V0 input.now }
{
    if actual != RTR_END_OF_DATA_V0_LEN {
        return Err(invalid_length(RTR_END_OF_DATA_V0_LEN, actual, 7));
    }
    let session_id = be16(input, 2);
    let serial_number = be32(input, 8);
    let pdu = RtrPdu::EndOfData(RtrEndOfData {
        version: RtrProtocolVersion::V0,
        session_id,
        serial_number,
        refresh_interval: None,
        retry_interval: None,
        expire_interval: None,
    });
    Ok((pdu, actual as usize))
}

// Type 7 in version 1: the three intervals besides.
fn parse_end_of_data_v1(input: &[u8], actual: u32) -> Result<(RtrPdu, usize), RtrError>
    requires { Framed actual input.now }
    ensures { verdict result ≡ read_end_of_data RtrProtocolVersion.V1 input.now }
{
    if actual != RTR_END_OF_DATA_V1_LEN {
        return Err(invalid_length(RTR_END_OF_DATA_V1_LEN, actual, 7));
    }
    let session_id = be16(input, 2);
    let serial_number = be32(input, 8);
    let refresh = be32(input, 12);
    let retry = be32(input, 16);
    let expire = be32(input, 20);
    let pdu = RtrPdu::EndOfData(RtrEndOfData {
        version: RtrProtocolVersion::V1,
        session_id,
        serial_number,
        refresh_interval: Some(refresh),
        retry_interval: Some(retry),
        expire_interval: Some(expire),
    });
    Ok((pdu, actual as usize))
}

// Type 7: its length goes by the version.
fn parse_end_of_data(
    input: &[u8],
    version: RtrProtocolVersion,
    actual: u32,
) -> Result<(RtrPdu, usize), RtrError>
    requires { Framed actual input.now }
    ensures { verdict result ≡ read_end_of_data version input.now }
{
    match version {
        RtrProtocolVersion::V0 => parse_end_of_data_v0(input, actual),
        RtrProtocolVersion::V1 => parse_end_of_data_v1(input, actual),
    }
}

// Type 8: the header alone.
fn parse_cache_reset(
    input: &[u8],
    version: RtrProtocolVersion,
    actual: u32,
) -> Result<(RtrPdu, usize), RtrError>
    requires { Framed actual input.now }
    ensures { verdict result ≡ read_cache_reset version input.now }
{
    if actual != RTR_CACHE_RESET_LEN {
        return Err(invalid_length(RTR_CACHE_RESET_LEN, actual, 8));
    }
    let pdu = RtrPdu::CacheReset(RtrCacheReset { version });
    Ok((pdu, actual as usize))
}

// Type 9 in the crate's arrangement: byte 9 is not looked at, and the key info is the rest.
fn parse_router_key_v1(input: &[u8], actual: u32) -> Result<(RtrPdu, usize), RtrError>
    requires { Framed actual input.now }
    ensures { verdict result ≡ read_router_key crate RtrProtocolVersion.V1 input.now }
{
    if actual < RTR_ROUTER_KEY_MIN_LEN {
        return Err(invalid_length(RTR_ROUTER_KEY_MIN_LEN, actual, 9));
    }
    let flags = be8(input, 8);
    let asn = be32(input, 30);
    let subject_key_identifier = Place { start: 10, len: 20 };
    let subject_public_key_info = Place {
        start: 34,
        len: actual as usize - 34,
    };
    let pdu = RtrPdu::RouterKey(RtrRouterKey {
        version: RtrProtocolVersion::V1,
        flags,
        subject_key_identifier,
        asn,
        subject_public_key_info,
    });
    Ok((pdu, actual as usize))
}

// Type 9: version 1 only, and that is tested before the length.
fn parse_router_key(
    input: &[u8],
    version: RtrProtocolVersion,
    actual: u32,
) -> Result<(RtrPdu, usize), RtrError>
    requires { Framed actual input.now }
    ensures { verdict result ≡ read_router_key in_use version input.now }
{
    match version {
        RtrProtocolVersion::V0 => Err(RtrError::RouterKeyInV0),
        RtrProtocolVersion::V1 => parse_router_key_v1(input, actual),
    }
}

// A length over 32 bits is named by the largest that fits, as the Rust's saturating sum.
fn capped_length(n: usize) -> u32
    ensures { result ≡ capped n }
{
    if n > 4294967295 { 4294967295 } else { n as u32 }
}

// Type 10, from the text's length on: a text that ends before the PDU does is read, as in the Rust.
fn parse_error_text(
    input: &[u8],
    version: RtrProtocolVersion,
    error_code: RtrErrorCode,
    encap_pdu_len: usize,
    actual: u32,
) -> Result<(RtrPdu, usize), RtrError>
    requires { (actual ≡ header_length input.now) × ((actual ≤ length input.now) × (16 + encap_pdu_len ≤ actual)) }
    ensures { verdict result ≡ read_text in_use version error_code encap_pdu_len (number input.now (12 + encap_pdu_len) 4) input.now }
{
    let error_text_len = be32(input, 12 + encap_pdu_len) as usize;
    let error_text_offset = 16 + encap_pdu_len;
    let end = error_text_offset + error_text_len;
    if end > actual as usize {
        return Err(invalid_length(capped_length(end), actual, 10));
    }
    if rtr_text::is_well_formed(&input[error_text_offset..end]) {
        let erroneous_pdu = Place {
            start: 12,
            len: encap_pdu_len,
        };
        let error_text = Place {
            start: error_text_offset,
            len: error_text_len,
        };
        let pdu = RtrPdu::ErrorReport(RtrErrorReport {
            version,
            error_code,
            erroneous_pdu,
            error_text,
        });
        return Ok((pdu, actual as usize));
    }
    Err(RtrError::InvalidUtf8)
}

// Type 10, from the encapsulated length on: wire lengths are added in 64 bits, so no sum wraps.
fn parse_error_pdu(
    input: &[u8],
    version: RtrProtocolVersion,
    error_code: RtrErrorCode,
    actual: u32,
) -> Result<(RtrPdu, usize), RtrError>
    requires { (actual ≡ header_length input.now) × ((actual ≤ length input.now) × (16 ≤ actual)) }
    ensures { verdict result ≡ read_encapsulated in_use version error_code (number input.now 8 4) input.now }
{
    let encap_pdu_len = be32(input, 8) as usize;
    let end = 16 + encap_pdu_len;
    if end > actual as usize {
        return Err(invalid_length(capped_length(end), actual, 10));
    }
    parse_error_text(input, version, error_code, encap_pdu_len, actual)
}

// Type 10: the error code stands where others have the session.
fn parse_error_report(
    input: &[u8],
    version: RtrProtocolVersion,
    actual: u32,
) -> Result<(RtrPdu, usize), RtrError>
    requires { Framed actual input.now }
    ensures { verdict result ≡ read_error_report in_use version input.now }
{
    if actual < RTR_ERROR_REPORT_MIN_LEN {
        return Err(invalid_length(RTR_ERROR_REPORT_MIN_LEN, actual, 10));
    }
    let code = be16(input, 2);
    let error_code = RtrErrorCode::from_u16(code).ok_or(RtrError::InvalidErrorCode(code))?;
    parse_error_pdu(input, version, error_code, actual)
}

// ---- Reading any kind

// The type is known: one function for each.
fn parse_as(
    input: &[u8],
    version: RtrProtocolVersion,
    pdu_type: RtrPduType,
    actual: u32,
) -> Result<(RtrPdu, usize), RtrError>
    requires { Framed actual input.now }
    ensures { verdict result ≡ read_as in_use version pdu_type input.now }
{
    match pdu_type {
        RtrPduType::SerialNotify => parse_serial_notify(input, version, actual),
        RtrPduType::SerialQuery => parse_serial_query(input, version, actual),
        RtrPduType::ResetQuery => parse_reset_query(input, version, actual),
        RtrPduType::CacheResponse => parse_cache_response(input, version, actual),
        RtrPduType::IPv4Prefix => parse_ipv4_prefix(input, version, actual),
        RtrPduType::IPv6Prefix => parse_ipv6_prefix(input, version, actual),
        RtrPduType::EndOfData => parse_end_of_data(input, version, actual),
        RtrPduType::CacheReset => parse_cache_reset(input, version, actual),
        RtrPduType::RouterKey => parse_router_key(input, version, actual),
        RtrPduType::ErrorReport => parse_error_report(input, version, actual),
    }
}

// The version is known: the type comes next.
fn parse_typed(
    input: &[u8],
    version: RtrProtocolVersion,
    actual: u32,
) -> Result<(RtrPdu, usize), RtrError>
    requires { Framed actual input.now }
    ensures { verdict result ≡ read_typed in_use version (number input.now 1 1) (type_found (number input.now 1 1)) input.now }
{
    let pdu_type_byte = be8(input, 1);
    let pdu_type = RtrPduType::from_u8(pdu_type_byte).ok_or(RtrError::InvalidPduType(
        pdu_type_byte,
    ))?;
    parse_as(input, version, pdu_type, actual)
}

// One PDU of any kind: completeness is tested before all else.
fn parse_any(input: &[u8]) -> Result<(RtrPdu, usize), RtrError>
    ensures { verdict result ≡ read in_use input.now }
{
    if input.len() < RTR_HEADER_LEN {
        return Err(RtrError::IncompletePdu {
            available: input.len(),
            needed: RTR_HEADER_LEN,
        });
    }
    let length = be32(input, 4);
    let length_usize = length as usize;
    if input.len() < length_usize {
        return Err(RtrError::IncompletePdu {
            available: input.len(),
            needed: length_usize,
        });
    }
    let version_byte = be8(input, 0);
    let version = RtrProtocolVersion::from_u8(version_byte).ok_or(RtrError::InvalidProtocolVersion(
        version_byte,
    ))?;
    parse_typed(input, version, length)
}

// A whole prefix of version 1 with its lengths in rule stands at the front. That nothing else is one nobody has to know.
fn is_plain(input: &[u8], pdu_type: u8, n: u32, limit: u8) -> bool
    requires { 11 ≤ n }
    ensures { result ≡ true → PlainPrefix pdu_type n limit input.now }
{
    if input.len() < n as usize {
        return false;
    }
    if be8(input, 1) != pdu_type {
        return false;
    }
    if be8(input, 0) != 1 {
        return false;
    }
    if be32(input, 4) != n {
        return false;
    }
    if be8(input, 10) > limit {
        return false;
    }
    be8(input, 9) <= be8(input, 10)
}

// One PDU from the front of any bytes. Prefixes, nearly all that a cache sends, come first: the compiler then stores their answer where it goes.
pub fn parse_rtr_pdu(input: &[u8]) -> Result<(RtrPdu, usize), RtrError>
    ensures { verdict result ≡ read in_use input.now }
{
    if is_plain(input, 4, RTR_IPV4_PREFIX_LEN, 32) {
        return ipv4_fields(input, RtrProtocolVersion::V1);
    }
    if is_plain(input, 6, RTR_IPV6_PREFIX_LEN, 128) {
        return ipv6_fields(input, RtrProtocolVersion::V1);
    }
    parse_any(input)
}

// How many bytes there must be before bytes are answered by anything but 1: the header's 8, then as many as it names.
pub fn bytes_needed(input: &[u8]) -> u32
    ensures { result ≡ needed input.now }
{
    if input.len() < RTR_HEADER_LEN {
        return RTR_HEADER_LEN as u32;
    }
    be32(input, 4)
}

// ---- A run of PDUs, read by place

// What stands at a place, and the place to go on from: past the PDU, or the same where it is refused.
#[derive(Clone, Copy)]
pub struct RunRead {
    pub answer: Result<(RtrPdu, usize), RtrError>,
    pub next: usize,
}

// The PDU at a place of a run; at or past the end that is 1 (0, 8). The PDU's own places count from its first byte, so ask its parts of
// the run from `at` on.
pub fn read_at(input: &[u8], at: usize) -> RunRead
    ensures { run_said result ≡ read_at in_use input.now at }
{
    if at > input.len() {
        let answer = parse_rtr_pdu(&input[..0]);
        return RunRead { answer, next: at };
    }
    let answer = parse_rtr_pdu(&input[at..]);
    let next = match answer {
        Ok((_, consumed)) => at + consumed,
        Err(_) => at,
    };
    RunRead { answer, next }
}
