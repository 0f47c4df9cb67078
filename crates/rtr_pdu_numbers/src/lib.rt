// PDUs as plain numbers, both ways, for a host that has no Rattle types: 12 numbers are a PDU. What is read back is written again and
// compared, so numbers that are nobody's are told from every other. Sessions: rtr_numbers.
#![tactic(auto)]

ghost use Rattle.std.specs.Prelude.{cond, ◌≡◌, eqb, length, get_or};
ghost use Rattle.rtr_numbers.specs.Back.{loose_version};
ghost use Rattle.rtr_pdu_numbers.specs.Numbers.{pdu_numbers, end_seconds};
ghost use Rattle.rtr_pdu_numbers.specs.Back.{loose_interval, loose_place, loose_notify, loose_query, loose_response, loose_ipv4, loose_ipv6, loose_end, loose_key, loose_report, loose_pdu, pdu_of};

use rtr_models::*;
use rtr_numbers::{Low, at, is_alike, loose_code, loose_version, put_numbers};

// How many numbers a PDU is.
pub const PDU_NUMBERS: usize = 12;

// ---- A PDU's numbers, one function for each kind

fn serial_notify_numbers(p: RtrSerialNotify, consumed: usize) -> [u64; 12]
    ensures { result ≡ pdu_numbers (RtrPdu.SerialNotify p) consumed }
{
    [
        0,
        p.version.to_u8() as u64,
        consumed as u64,
        p.session_id as u64,
        p.serial_number as u64,
        0,
        0,
        0,
        0,
        0,
        0,
        0,
    ]
}

fn serial_query_numbers(p: RtrSerialQuery, consumed: usize) -> [u64; 12]
    ensures { result ≡ pdu_numbers (RtrPdu.SerialQuery p) consumed }
{
    [
        1,
        p.version.to_u8() as u64,
        consumed as u64,
        p.session_id as u64,
        p.serial_number as u64,
        0,
        0,
        0,
        0,
        0,
        0,
        0,
    ]
}

fn reset_query_numbers(p: RtrResetQuery, consumed: usize) -> [u64; 12]
    ensures { result ≡ pdu_numbers (RtrPdu.ResetQuery p) consumed }
{
    [
        2,
        p.version.to_u8() as u64,
        consumed as u64,
        0,
        0,
        0,
        0,
        0,
        0,
        0,
        0,
        0,
    ]
}

fn cache_response_numbers(p: RtrCacheResponse, consumed: usize) -> [u64; 12]
    ensures { result ≡ pdu_numbers (RtrPdu.CacheResponse p) consumed }
{
    [
        3,
        p.version.to_u8() as u64,
        consumed as u64,
        p.session_id as u64,
        0,
        0,
        0,
        0,
        0,
        0,
        0,
        0,
    ]
}

fn ipv4_prefix_numbers(p: RtrIPv4Prefix, consumed: usize) -> [u64; 12]
    ensures { result ≡ pdu_numbers (RtrPdu.IPv4Prefix p) consumed }
{
    [
        4,
        p.version.to_u8() as u64,
        consumed as u64,
        p.flags as u64,
        p.prefix_length as u64,
        p.max_length as u64,
        p.prefix as u64,
        p.asn as u64,
        0,
        0,
        0,
        0,
    ]
}

fn ipv6_prefix_numbers(p: RtrIPv6Prefix, consumed: usize) -> [u64; 12]
    ensures { result ≡ pdu_numbers (RtrPdu.IPv6Prefix p) consumed }
{
    [
        6,
        p.version.to_u8() as u64,
        consumed as u64,
        p.flags as u64,
        p.prefix_length as u64,
        p.max_length as u64,
        p.prefix.w0 as u64,
        p.prefix.w1 as u64,
        p.prefix.w2 as u64,
        p.prefix.w3 as u64,
        p.asn as u64,
        0,
    ]
}

// An interval as it is encoded.
fn seconds(version: RtrProtocolVersion, default: u32, interval: Option<u32>) -> u64
    ensures { result ≡ end_seconds version default interval }
{
    match version {
        RtrProtocolVersion::V0 => 0,
        RtrProtocolVersion::V1 => interval.unwrap_or(default) as u64,
    }
}

fn end_of_data_numbers(p: RtrEndOfData, consumed: usize) -> [u64; 12]
    ensures { result ≡ pdu_numbers (RtrPdu.EndOfData p) consumed }
{
    [
        7,
        p.version.to_u8() as u64,
        consumed as u64,
        p.session_id as u64,
        p.serial_number as u64,
        seconds(p.version, RtrEndOfData::DEFAULT_REFRESH, p.refresh_interval),
        seconds(p.version, RtrEndOfData::DEFAULT_RETRY, p.retry_interval),
        seconds(p.version, RtrEndOfData::DEFAULT_EXPIRE, p.expire_interval),
        0,
        0,
        0,
        0,
    ]
}

fn cache_reset_numbers(p: RtrCacheReset, consumed: usize) -> [u64; 12]
    ensures { result ≡ pdu_numbers (RtrPdu.CacheReset p) consumed }
{
    [
        8,
        p.version.to_u8() as u64,
        consumed as u64,
        0,
        0,
        0,
        0,
        0,
        0,
        0,
        0,
        0,
    ]
}

fn router_key_numbers(p: RtrRouterKey, consumed: usize) -> [u64; 12]
    ensures { result ≡ pdu_numbers (RtrPdu.RouterKey p) consumed }
{
    [
        9,
        p.version.to_u8() as u64,
        consumed as u64,
        p.flags as u64,
        p.subject_key_identifier.start as u64,
        p.subject_key_identifier.len as u64,
        p.asn as u64,
        p.subject_public_key_info.start as u64,
        p.subject_public_key_info.len as u64,
        0,
        0,
        0,
    ]
}

fn error_report_numbers(p: RtrErrorReport, consumed: usize) -> [u64; 12]
    ensures { result ≡ pdu_numbers (RtrPdu.ErrorReport p) consumed }
{
    [
        10,
        p.version.to_u8() as u64,
        consumed as u64,
        p.error_code.to_u16() as u64,
        p.erroneous_pdu.start as u64,
        p.erroneous_pdu.len as u64,
        p.error_text.start as u64,
        p.error_text.len as u64,
        0,
        0,
        0,
        0,
    ]
}

fn pdu_numbers(pdu: RtrPdu, consumed: usize) -> [u64; 12]
    ensures { result ≡ pdu_numbers pdu consumed }
{
    match pdu {
        RtrPdu::SerialNotify(p) => serial_notify_numbers(p, consumed),
        RtrPdu::SerialQuery(p) => serial_query_numbers(p, consumed),
        RtrPdu::ResetQuery(p) => reset_query_numbers(p, consumed),
        RtrPdu::CacheResponse(p) => cache_response_numbers(p, consumed),
        RtrPdu::IPv4Prefix(p) => ipv4_prefix_numbers(p, consumed),
        RtrPdu::IPv6Prefix(p) => ipv6_prefix_numbers(p, consumed),
        RtrPdu::EndOfData(p) => end_of_data_numbers(p, consumed),
        RtrPdu::CacheReset(p) => cache_reset_numbers(p, consumed),
        RtrPdu::RouterKey(p) => router_key_numbers(p, consumed),
        RtrPdu::ErrorReport(p) => error_report_numbers(p, consumed),
    }
}

// Sets the 12 numbers to the PDU's; where not 12 are lent, nothing is set.
pub fn put_pdu(pdu: RtrPdu, consumed: usize, numbers: &mut [u64]) -> bool
    ensures { (result ≡ eqb (length numbers.old) 12) × (numbers.new ≡ cond (eqb (length numbers.old) 12) (pdu_numbers pdu consumed) numbers.old) }
{
    let said = pdu_numbers(pdu, consumed);
    put_numbers(numbers, &said)
}

// ---- A PDU from numbers: a guess, then the comparison

fn loose_interval(version: RtrProtocolVersion, n: u64) -> Option<u32>
    ensures { result ≡ loose_interval version n }
{
    match version {
        RtrProtocolVersion::V0 => None,
        RtrProtocolVersion::V1 => Some(u32::low(n)),
    }
}

fn loose_place(n: &[u64], start: usize, len: usize) -> Place
    ensures { result ≡ loose_place n.now start len }
{
    Place {
        start: at(n, start) as usize,
        len: at(n, len) as usize,
    }
}

fn loose_notify(version: RtrProtocolVersion, n: &[u64]) -> RtrPdu
    ensures { result ≡ RtrPdu.SerialNotify (loose_notify version n.now) }
{
    RtrPdu::SerialNotify(RtrSerialNotify {
        version,
        session_id: u16::low(at(n, 3)),
        serial_number: u32::low(at(n, 4)),
    })
}

fn loose_query(version: RtrProtocolVersion, n: &[u64]) -> RtrPdu
    ensures { result ≡ RtrPdu.SerialQuery (loose_query version n.now) }
{
    RtrPdu::SerialQuery(RtrSerialQuery {
        version,
        session_id: u16::low(at(n, 3)),
        serial_number: u32::low(at(n, 4)),
    })
}

fn loose_response(version: RtrProtocolVersion, n: &[u64]) -> RtrPdu
    ensures { result ≡ RtrPdu.CacheResponse (loose_response version n.now) }
{
    RtrPdu::CacheResponse(RtrCacheResponse {
        version,
        session_id: u16::low(at(n, 3)),
    })
}

fn loose_ipv4(version: RtrProtocolVersion, n: &[u64]) -> RtrPdu
    ensures { result ≡ RtrPdu.IPv4Prefix (loose_ipv4 version n.now) }
{
    RtrPdu::IPv4Prefix(RtrIPv4Prefix {
        version,
        flags: u8::low(at(n, 3)),
        prefix_length: u8::low(at(n, 4)),
        max_length: u8::low(at(n, 5)),
        prefix: u32::low(at(n, 6)),
        asn: u32::low(at(n, 7)),
    })
}

fn loose_ipv6(version: RtrProtocolVersion, n: &[u64]) -> RtrPdu
    ensures { result ≡ RtrPdu.IPv6Prefix (loose_ipv6 version n.now) }
{
    RtrPdu::IPv6Prefix(RtrIPv6Prefix {
        version,
        flags: u8::low(at(n, 3)),
        prefix_length: u8::low(at(n, 4)),
        max_length: u8::low(at(n, 5)),
        prefix: Ipv6Addr {
            w0: u32::low(at(n, 6)),
            w1: u32::low(at(n, 7)),
            w2: u32::low(at(n, 8)),
            w3: u32::low(at(n, 9)),
        },
        asn: u32::low(at(n, 10)),
    })
}

fn loose_end(version: RtrProtocolVersion, n: &[u64]) -> RtrPdu
    ensures { result ≡ RtrPdu.EndOfData (loose_end version n.now) }
{
    RtrPdu::EndOfData(RtrEndOfData {
        version,
        session_id: u16::low(at(n, 3)),
        serial_number: u32::low(at(n, 4)),
        refresh_interval: loose_interval(version, at(n, 5)),
        retry_interval: loose_interval(version, at(n, 6)),
        expire_interval: loose_interval(version, at(n, 7)),
    })
}

fn loose_key(version: RtrProtocolVersion, n: &[u64]) -> RtrPdu
    ensures { result ≡ RtrPdu.RouterKey (loose_key version n.now) }
{
    RtrPdu::RouterKey(RtrRouterKey {
        version,
        flags: u8::low(at(n, 3)),
        subject_key_identifier: loose_place(n, 4, 5),
        asn: u32::low(at(n, 6)),
        subject_public_key_info: loose_place(n, 7, 8),
    })
}

fn loose_report(version: RtrProtocolVersion, n: &[u64]) -> RtrPdu
    ensures { result ≡ RtrPdu.ErrorReport (loose_report version n.now) }
{
    RtrPdu::ErrorReport(RtrErrorReport {
        version,
        error_code: loose_code(at(n, 3)),
        erroneous_pdu: loose_place(n, 4, 5),
        error_text: loose_place(n, 6, 7),
    })
}

fn loose_pdu(n: &[u64]) -> RtrPdu
    ensures { result ≡ loose_pdu (loose_version (get_or n.now 1 0)) n.now }
{
    let version = loose_version(at(n, 1));
    let kind = at(n, 0);
    match kind {
        0 => loose_notify(version, n),
        1 => loose_query(version, n),
        2 => RtrPdu::ResetQuery(RtrResetQuery { version }),
        3 => loose_response(version, n),
        4 => loose_ipv4(version, n),
        6 => loose_ipv6(version, n),
        7 => loose_end(version, n),
        8 => RtrPdu::CacheReset(RtrCacheReset { version }),
        9 => loose_key(version, n),
        _ => loose_report(version, n),
    }
}

// The PDU that has these numbers; None where none has them.
pub fn pdu_of(numbers: &[u64]) -> Option<(RtrPdu, usize)>
    ensures { result ≡ pdu_of numbers.now }
{
    let pdu = loose_pdu(numbers);
    let consumed = at(numbers, 2) as usize;
    let said = pdu_numbers(pdu, consumed);
    is_alike(&said, numbers).then_some((pdu, consumed))
}
