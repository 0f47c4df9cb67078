// Reading by place and through a run, a PDU's payloads, and an End of Data with absent intervals.
use crate::narrow::*;
use rtr_codec::{RtrError, RunRead, parse_rtr_pdu, read_at};
use rtr_models::*;
use rtr_numbers::{at, error_value, put_numbers};
use rtr_pdu_numbers::{pdu_of, put_pdu};

// A refusal's number; its three values become the first three of 12 numbers.
fn put_refusal(error: RtrError, pdu: &mut [u64]) -> u8 {
    let said = [
        error_value(error, 0),
        error_value(error, 1),
        error_value(error, 2),
        0,
        0,
        0,
        0,
        0,
        0,
        0,
        0,
        0,
    ];
    let _ = put_numbers(pdu, &said);
    error.number()
}

fn read_as(run: bool, bytes: &[u8], from: usize) -> RunRead {
    if run {
        return rtr_held::read_run(bytes, from);
    }
    read_at(bytes, from)
}

// Reads by place, or through a run that holds the bytes: 0 and the PDU's 12 numbers, or the refusal and its values; the place to go on from.
#[unsafe(no_mangle)]
pub extern "C" fn test_read(
    run: bool,
    bytes: &[u8],
    from: usize,
    pdu: &mut [u64],
    next: &mut u64,
) -> u8 {
    let read = read_as(run, bytes, from);
    *next = read.next as u64;
    match read.answer {
        Ok((value, consumed)) => {
            let _ = put_pdu(value, consumed, pdu);
            0
        }
        Err(error) => put_refusal(error, pdu),
    }
}

// Bytes left from a place on; 1 where the run is done.
#[unsafe(no_mangle)]
pub extern "C" fn test_rest(bytes: &[u8], from: usize, rest: &mut u64) -> u8 {
    *rest = rtr_held::rest_at(bytes, from) as u64;
    if rtr_held::done_at(bytes, from) { 1 } else { 0 }
}

// The models' own type and version of the PDU that starts these bytes, or 65535.
#[unsafe(no_mangle)]
pub extern "C" fn test_kind(bytes: &[u8]) -> u64 {
    match parse_rtr_pdu(bytes) {
        Ok((pdu, _)) => pdu.pdu_type().to_u8() as u64 * 256 + pdu.version().to_u8() as u64,
        Err(_) => 65535,
    }
}

fn wide(byte: u8) -> u64 {
    byte as u64
}

// Byte i of a payload, or 256 where it has none.
fn byte_of(part: &[u8], i: usize) -> u64 {
    if i < part.len() {
        return wide(part[i]);
    }
    256
}

// Byte i of payload `which` of the PDU with these numbers: key identifier, key info, copy, text. 256 where it has none.
#[unsafe(no_mangle)]
pub extern "C" fn test_part(pdu: &[u64], bytes: &[u8], which: u8, i: usize) -> u64 {
    match pdu_of(pdu) {
        Some((RtrPdu::RouterKey(p), _)) => {
            if which == 0 {
                return byte_of(p.subject_key_identifier_part(bytes), i);
            }
            byte_of(p.subject_public_key_info_part(bytes), i)
        }
        Some((RtrPdu::ErrorReport(p), _)) => {
            if which == 2 {
                return byte_of(p.erroneous_pdu_part(bytes), i);
            }
            byte_of(p.error_text_part(bytes), i)
        }
        _ => 256,
    }
}

// A number over 32 bits is an absent interval.
fn interval(n: u64) -> Option<u32> {
    if n < 4294967296 {
        return Some(low32(n));
    }
    None
}

fn version_of(n: u64) -> RtrProtocolVersion {
    if n == 0 {
        return RtrProtocolVersion::V0;
    }
    RtrProtocolVersion::V1
}

// An End of Data by its numbers, in either version with intervals or without: the bytes written, or 0.
#[unsafe(no_mangle)]
pub extern "C" fn test_encode_end(numbers: &[u64], out: &mut [u8]) -> u64 {
    let p = RtrEndOfData {
        version: version_of(at(numbers, 1)),
        session_id: low16(at(numbers, 3)),
        serial_number: low32(at(numbers, 4)),
        refresh_interval: interval(at(numbers, 5)),
        retry_interval: interval(at(numbers, 6)),
        expire_interval: interval(at(numbers, 7)),
    };
    match rtr_encode::encode(RtrPdu::EndOfData(p), b"", out) {
        Ok(n) => n as u64,
        Err(_) => 0,
    }
}
