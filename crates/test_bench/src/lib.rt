// For bench/: loops over reading, encoding and the stream's search, whose cost is compared with the Rust's, with a sum of what they say, so that the two can be
// held side by side. They are in Rattle so that the compiler sees call and caller at once, as it does the Rust's; the receiver's loops are C (bench/ours.c). Proved
// safe and ending; it promises nothing of its sums, which the bench compares.
#![tactic(auto)]

use rtr_codec::parse_rtr_pdu;
use rtr_encode::encode;
use rtr_models::*;
use rtr_stream::{Stream, search};

// ---- Sums

// Three times the sum and the next number: nothing that went in is lost, and the order counts.
fn mix(sum: u64, x: u64) -> u64 {
    let twice = std::num::wrapping_add_u64(sum, sum);
    std::num::wrapping_add_u64(std::num::wrapping_add_u64(twice, sum), x)
}

fn mix8(sum: u64, x: u8) -> u64 {
    mix(sum, x as u64)
}

fn mix16(sum: u64, x: u16) -> u64 {
    mix(sum, x as u64)
}

fn mix32(sum: u64, x: u32) -> u64 {
    mix(sum, x as u64)
}

// A payload: its length, its first and its last byte.
fn mix_ends(sum: u64, part: &[u8]) -> u64 {
    let n = part.len();
    let sum = mix(sum, n as u64);
    if n == 0 {
        return sum;
    }
    mix8(mix8(sum, part[0]), part[n - 1])
}

// A PDU's kind and version.
fn mix_head(sum: u64, kind: u64, version: RtrProtocolVersion) -> u64 {
    mix8(mix(sum, kind), version.to_u8())
}

fn mix_ipv4(sum: u64, p: RtrIPv4Prefix) -> u64 {
    let version = p.version;
    let sum = mix_head(sum, 4, version);
    let sum = mix8(mix8(mix8(sum, p.flags), p.prefix_length), p.max_length);
    mix32(mix32(sum, p.prefix), p.asn)
}

fn mix_ipv6(sum: u64, p: RtrIPv6Prefix) -> u64 {
    let version = p.version;
    let sum = mix_head(sum, 6, version);
    let sum = mix8(mix8(mix8(sum, p.flags), p.prefix_length), p.max_length);
    let a = p.prefix;
    let sum = mix32(mix32(mix32(mix32(sum, a.w0), a.w1), a.w2), a.w3);
    mix32(sum, p.asn)
}

fn mix_end(sum: u64, p: RtrEndOfData) -> u64 {
    let version = p.version;
    let sum = mix_head(sum, 7, version);
    let sum = mix32(mix16(sum, p.session_id), p.serial_number);
    let sum = mix32(sum, p.refresh_interval_or_default());
    let sum = mix32(sum, p.retry_interval_or_default());
    mix32(sum, p.expire_interval_or_default())
}

fn mix_key(sum: u64, p: RtrRouterKey, bytes: &[u8]) -> u64 {
    let version = p.version;
    let sum = mix_head(sum, 9, version);
    let sum = mix32(mix8(sum, p.flags), p.asn);
    let sum = mix_ends(sum, p.subject_key_identifier_part(bytes));
    mix_ends(sum, p.subject_public_key_info_part(bytes))
}

fn mix_report(sum: u64, p: RtrErrorReport, bytes: &[u8]) -> u64 {
    let version = p.version;
    let sum = mix_head(sum, 10, version);
    let code = p.error_code;
    let sum = mix16(sum, code.to_u16());
    let sum = mix_ends(sum, p.erroneous_pdu_part(bytes));
    mix_ends(sum, p.error_text_part(bytes))
}

fn mix_serial(sum: u64, session_id: u16, serial_number: u32) -> u64 {
    mix32(mix16(sum, session_id), serial_number)
}

// Every field of a PDU that starts with these bytes.
fn mix_pdu(sum: u64, pdu: RtrPdu, bytes: &[u8]) -> u64 {
    match pdu {
        RtrPdu::SerialNotify(p) => {
            let version = p.version;
            mix_serial(mix_head(sum, 0, version), p.session_id, p.serial_number)
        }
        RtrPdu::SerialQuery(p) => {
            let version = p.version;
            mix_serial(mix_head(sum, 1, version), p.session_id, p.serial_number)
        }
        RtrPdu::ResetQuery(p) => {
            let version = p.version;
            mix_head(sum, 2, version)
        }
        RtrPdu::CacheResponse(p) => {
            let version = p.version;
            mix16(mix_head(sum, 3, version), p.session_id)
        }
        RtrPdu::IPv4Prefix(p) => mix_ipv4(sum, p),
        RtrPdu::IPv6Prefix(p) => mix_ipv6(sum, p),
        RtrPdu::EndOfData(p) => mix_end(sum, p),
        RtrPdu::CacheReset(p) => {
            let version = p.version;
            mix_head(sum, 8, version)
        }
        RtrPdu::RouterKey(p) => mix_key(sum, p, bytes),
        RtrPdu::ErrorReport(p) => mix_report(sum, p, bytes),
    }
}

// ---- Reading

// How many bytes were read, and the sum with them.
#[derive(Clone, Copy)]
struct Took {
    n: usize,
    sum: u64,
}

fn read_one(sum: u64, bytes: &[u8]) -> Took {
    match parse_rtr_pdu(bytes) {
        Ok((pdu, n)) => Took {
            n,
            sum: mix_pdu(sum, pdu, bytes),
        },
        Err(_) => Took { n: 0, sum },
    }
}

// Every PDU of a run is read.
#[unsafe(no_mangle)]
pub extern "C" fn bench_read(bytes: &[u8]) -> u64 {
    let mut at = 0;
    let mut sum = 0;
    // No count: the next PDU begins where this one ends.
    while at < bytes.len() {
        let took = read_one(sum, &bytes[at..]);
        sum = took.sum;
        if took.n == 0 {
            return sum;
        }
        if took.n > bytes.len() - at {
            return sum;
        }
        at += took.n;
    }
    sum
}

// Every PDU of a run is read, and only its length is used.
fn pass_one(sum: u64, bytes: &[u8]) -> Took {
    match parse_rtr_pdu(bytes) {
        Ok((_, n)) => Took {
            n,
            sum: mix(sum, n as u64),
        },
        Err(_) => Took { n: 0, sum },
    }
}

#[unsafe(no_mangle)]
pub extern "C" fn bench_pass(bytes: &[u8]) -> u64 {
    let mut at = 0;
    let mut sum = 0;
    // No count: the next PDU begins where this one ends.
    while at < bytes.len() {
        let took = pass_one(sum, &bytes[at..]);
        sum = took.sum;
        if took.n == 0 {
            return sum;
        }
        if took.n > bytes.len() - at {
            return sum;
        }
        at += took.n;
    }
    sum
}

// ---- Encoding

// The first so many bytes of an output, as a payload.
fn mix_written(sum: u64, out: &[u8], n: usize) -> u64 {
    let sum = mix(sum, n as u64);
    if n == 0 {
        return sum;
    }
    if n > out.len() {
        return sum;
    }
    mix8(mix8(sum, out[0]), out[n - 1])
}

fn encode_one(sum: u64, pdu: RtrPdu, bytes: &[u8], out: &mut [u8]) -> u64 {
    match encode(pdu, bytes, out) {
        Ok(n) => mix_written(sum, out, n),
        Err(_) => sum,
    }
}

fn recode_one(sum: u64, bytes: &[u8], out: &mut [u8]) -> Took {
    match parse_rtr_pdu(bytes) {
        Ok((pdu, n)) => Took {
            n,
            sum: encode_one(sum, pdu, bytes, out),
        },
        Err(_) => Took { n: 0, sum },
    }
}

// Every PDU of a run is read and encoded.
#[unsafe(no_mangle)]
pub extern "C" fn bench_recode(bytes: &[u8], out: &mut [u8]) -> u64 {
    let mut at = 0;
    let mut sum = 0;
    // No count: the next PDU begins where this one ends.
    while at < bytes.len() {
        let took = recode_one(sum, &bytes[at..], out);
        sum = took.sum;
        if took.n == 0 {
            return sum;
        }
        if took.n > bytes.len() - at {
            return sum;
        }
        at += took.n;
    }
    sum
}

// ---- The stream

#[derive(Clone, Copy)]
struct Heard {
    held: usize,
    next: usize,
    sum: u64,
    is_more: bool,
}

// The sum has where each PDU ends.
fn hear_one(hold: &mut [u8], piece: &[u8], h: Heard) -> Heard {
    let searched = search(hold, Stream { held: h.held }, piece, h.next);
    let held = searched.stream.held;
    let next = searched.next;
    match searched.answer {
        Ok(Some(_)) => Heard {
            held,
            next,
            sum: mix(h.sum, next as u64),
            is_more: true,
        },
        _ => Heard {
            held,
            next,
            sum: h.sum,
            is_more: false,
        },
    }
}

fn hear_piece(hold: &mut [u8], piece: &[u8], held: usize, sum: u64) -> Heard {
    let mut h = Heard {
        held,
        next: 0,
        sum,
        is_more: true,
    };
    for _ in 0..u64::MAX {
        h = hear_one(hold, piece, h);
        if !h.is_more {
            return h;
        }
    }
    h
}

// Every PDU of a stream that comes in pieces; none in pieces of no byte.
#[unsafe(no_mangle)]
pub extern "C" fn bench_stream(hold: &mut [u8], bytes: &[u8], size: usize) -> u64 {
    let mut held = 0;
    let mut sum = 0;
    if size == 0 {
        return sum;
    }
    for piece in bytes.chunks(size) {
        let h = hear_piece(hold, piece, held, sum);
        held = h.held;
        sum = h.sum;
    }
    sum
}

// One search, that nobody measures: with one caller alone the compiler would put `search` into that caller's loop and leave out the PDU, which the loop does not
// look at. Two callers keep it a call, as the receiver has it.
#[unsafe(no_mangle)]
pub extern "C" fn bench_search(hold: &mut [u8], bytes: &[u8]) -> u64 {
    let searched = search(hold, Stream { held: 0 }, bytes, 0);
    searched.next as u64
}
