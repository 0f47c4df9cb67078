// Document 01's edges that no theorem states, run: texts on either side of UTF-8's edges, nests of 15 to 18 reports, empty and full, what is
// encoded, and payloads out of place. The file `stdout` has what must be printed.
#![tactic(auto)]

use rtr_codec::{RtrError, parse_rtr_pdu};
use rtr_encode::EncodeError;
use rtr_models::{
    Place, RtrEndOfData, RtrErrorCode, RtrErrorReport, RtrIPv4Prefix, RtrPdu, RtrProtocolVersion,
    RtrRouterKey,
};
use rtr_walk::WalkEnd;
use std::io;

// ---- Printing

fn say(out: &impl Print, text: &[u8]) -> io::Result<()> {
    out.write_all(text)
}

fn say_number(out: &impl Print, name: &[u8], n: u64) -> io::Result<()> {
    say(out, name)?;
    print!(out; "{n}")
}

fn hex_digit(n: u8) -> u8 {
    if n < 10 {
        return b'0' + n;
    }
    if n < 16 {
        return b'a' + (n - 10);
    }
    b'?'
}

fn say_byte(out: &impl Print, byte: u8) -> io::Result<()> {
    let digits = [hex_digit(byte / 16), hex_digit(byte % 16)];
    say(out, &digits)
}

fn say_hex(out: &impl Print, bytes: &[u8]) -> io::Result<()> {
    for byte in bytes {
        say_byte(out, *byte)?;
    }
    Ok(())
}

fn say_three(out: &impl Print, a: u64, b: u64, c: u64) -> io::Result<()> {
    say_number(out, b" ", a)?;
    say_number(out, b" ", b)?;
    say_number(out, b" ", c)
}

// A refusal: document 01's number and the values that go with it.
fn say_refusal(out: &impl Print, error: RtrError) -> io::Result<()> {
    say_number(out, b"refused ", error.number() as u64)?;
    match error {
        RtrError::IncompletePdu { available, needed } => {
            say_number(out, b" ", available as u64)?;
            say_number(out, b" ", needed as u64)
        }
        RtrError::InvalidProtocolVersion(v) => say_number(out, b" ", v as u64),
        RtrError::InvalidPduType(t) => say_number(out, b" ", t as u64),
        RtrError::InvalidLength {
            expected,
            actual,
            pdu_type,
        } => say_three(out, expected as u64, actual as u64, pdu_type as u64),
        RtrError::RouterKeyInV0 => Ok(()),
        RtrError::InvalidPrefixLength {
            prefix_len,
            max_len,
            max_allowed,
        } => say_three(out, prefix_len as u64, max_len as u64, max_allowed as u64),
        RtrError::InvalidErrorCode(c) => say_number(out, b" ", c as u64),
        RtrError::InvalidUtf8 => Ok(()),
    }
}

fn say_report(out: &impl Print, p: RtrErrorReport, input: &[u8]) -> io::Result<()> {
    say_number(out, b" code=", p.error_code.to_u16() as u64)?;
    say(out, b" encap=")?;
    say_hex(out, p.erroneous_pdu_part(input))?;
    say(out, b" text=")?;
    say_hex(out, p.error_text_part(input))
}

// Of a PDU that is no Error Report type and version alone: none of the edges has one.
fn say_pdu(out: &impl Print, pdu: RtrPdu, input: &[u8]) -> io::Result<()> {
    say_number(out, b" type=", pdu.pdu_type().to_u8() as u64)?;
    say_number(out, b" version=", pdu.version().to_u8() as u64)?;
    match pdu {
        RtrPdu::ErrorReport(p) => say_report(out, p, input),
        _ => Ok(()),
    }
}

// ---- Reading, walking, encoding

// A label, and what reading says.
fn show_read(out: &impl Print, label: &[u8], input: &[u8]) -> io::Result<()> {
    say(out, label)?;
    say(out, b": ")?;
    match parse_rtr_pdu(input) {
        Ok((pdu, consumed)) => {
            say_number(out, b"ok consumed=", consumed as u64)?;
            say_pdu(out, pdu, input)?;
        }
        Err(error) => say_refusal(out, error)?,
    }
    say(out, b"\n")
}

fn say_end(out: &impl Print, end: WalkEnd) -> io::Result<()> {
    match end {
        WalkEnd::Plain(pdu_type) => say_number(out, b" plain=", pdu_type.to_u8() as u64),
        WalkEnd::Empty => say(out, b" empty"),
        WalkEnd::Refused(n) => say_number(out, b" refused=", n as u64),
        WalkEnd::TooDeep => say(out, b" too deep"),
    }
}

// A label, and how the walk ends.
fn show_walk(out: &impl Print, label: &[u8], input: &[u8]) -> io::Result<()> {
    say(out, label)?;
    say(out, b": ")?;
    match rtr_walk::walk(input) {
        Ok((level, end)) => {
            say_number(out, b"level=", level as u64)?;
            say_end(out, end)?;
        }
        Err(error) => say_refusal(out, error)?,
    }
    say(out, b"\n")
}

// One report around what a slice holds, as the encoder writes it; no bytes where it does not fit.
fn report_of(input: &[u8], out: &mut [u8]) -> usize {
    let whole = Place {
        start: 0,
        len: input.len(),
    };
    let none = Place { start: 0, len: 0 };
    let report = RtrErrorReport::new(
        RtrProtocolVersion::V1,
        RtrErrorCode::CorruptData,
        whole,
        none,
    );
    rtr_encode::encode_error_report(report, input, out).unwrap_or(0)
}

// The first n bytes, as far as both have them.
fn copy_back(from: &[u8], n: usize, to: &mut [u8]) {
    let most = n.min(from.len()).min(to.len());
    to[..most].copy_from_slice(&from[..most]);
}

// One report around the first n bytes of a buffer, in their place.
fn wrap(n: usize, out: &mut [u8]) -> usize {
    let mut next = [0u8; 512];
    if n > out.len() {
        return 0;
    }
    let m = report_of(&out[0..n], &mut next);
    copy_back(&next, m, out);
    m
}

// `levels` reports around a core, the innermost first; how long it is.
fn nest(levels: usize, core: &[u8], out: &mut [u8]) -> usize {
    let mut n = core.len();
    copy_back(core, n, out);
    for _ in 0..levels {
        n = wrap(n, out);
    }
    n
}

fn show_nest(out: &impl Print, label: &[u8], levels: usize, core: &[u8]) -> io::Result<()> {
    let mut bytes = [0u8; 512];
    let n = nest(levels, core, &mut bytes);
    if n <= 512 {
        show_walk(out, label, &bytes[0..n])?;
    }
    Ok(())
}

fn say_needed(out: &impl Print, error: EncodeError) -> io::Result<()> {
    match error {
        EncodeError::OutputShort { needed } => say_number(out, b" ", needed as u64),
        _ => Ok(()),
    }
}

fn say_encoded(out: &impl Print, answer: Result<usize, EncodeError>) -> io::Result<()> {
    match answer {
        Ok(n) => say_number(out, b"written=", n as u64),
        Err(error) => {
            say_number(out, b"refused ", error.number() as u64)?;
            say_needed(out, error)
        }
    }
}

fn say_all(out: &impl Print, bytes: &[u8; 64]) -> io::Result<()> {
    say(out, b" ")?;
    say_hex(out, bytes)?;
    say(out, b"\n")
}

// What encoding says of a PDU, and the whole buffer afterwards: `aa` is what stood there.
fn show_encode(
    out: &impl Print,
    label: &[u8],
    pdu: RtrPdu,
    input: &[u8],
    room: usize,
) -> io::Result<()> {
    let mut bytes = [0xaau8; 64];
    if room <= 64 {
        let answer = rtr_encode::encode(pdu, input, &mut bytes[0..room]);
        say(out, label)?;
        say(out, b": ")?;
        say_encoded(out, answer)?;
        say_all(out, &bytes)?;
    }
    Ok(())
}

fn report(copy: Place, text: Place) -> RtrPdu {
    RtrPdu::ErrorReport(RtrErrorReport::new(
        RtrProtocolVersion::V1,
        RtrErrorCode::CorruptData,
        copy,
        text,
    ))
}

fn key(version: RtrProtocolVersion, start: usize, len: usize, info: Place) -> RtrPdu {
    let subject_key_identifier = Place { start, len };
    RtrPdu::RouterKey(RtrRouterKey {
        version,
        flags: 255,
        subject_key_identifier,
        asn: 64496,
        subject_public_key_info: info,
    })
}

// A place against five bytes: its answer and its part.
fn show_place(out: &impl Print, label: &[u8], start: usize, len: usize) -> io::Result<()> {
    let place = Place { start, len };
    let bytes = [1u8, 2, 3, 4, 5];
    say(out, label)?;
    match place.answer(&bytes) {
        Ok(()) => say(out, b": part ")?,
        Err(_) => say(out, b": refused 11 ")?,
    }
    say_hex(out, place.part(&bytes))?;
    say(out, b"\n")
}

// ---- The edges

fn texts(out: &impl Print) -> io::Result<()> {
    show_read(
        out,
        b"c080",
        b"\x01\x0a\x00\x00\x00\x00\x00\x12\x00\x00\x00\x00\x00\x00\x00\x02\xc0\x80",
    )?;
    show_read(
        out,
        b"eda080",
        b"\x01\x0a\x00\x00\x00\x00\x00\x13\x00\x00\x00\x00\x00\x00\x00\x03\xed\xa0\x80",
    )?;
    show_read(
        out,
        b"f4908080",
        b"\x01\x0a\x00\x00\x00\x00\x00\x14\x00\x00\x00\x00\x00\x00\x00\x04\xf4\x90\x80\x80",
    )?;
    show_read(
        out,
        b"f48fbfbf",
        b"\x01\x0a\x00\x00\x00\x00\x00\x14\x00\x00\x00\x00\x00\x00\x00\x04\xf4\x8f\xbf\xbf",
    )?;
    show_read(
        out,
        b"NUL",
        b"\x01\x0a\x00\x00\x00\x00\x00\x11\x00\x00\x00\x00\x00\x00\x00\x01\x00",
    )?;
    show_read(
        out,
        b"empty",
        b"\x01\x0a\x00\x00\x00\x00\x00\x10\x00\x00\x00\x00\x00\x00\x00\x00",
    )?;
    show_read(out, b"length 0 in v0", b"\x00\x09\x00\x00\x00\x00\x00\x00")?;
    show_read(
        out,
        b"length 0 of a report",
        b"\x01\x0a\x00\x00\x00\x00\x00\x00",
    )
}

// Level 0 is the outermost report, so n reports hold level n at the deepest.
fn nests(out: &impl Print) -> io::Result<()> {
    let query = b"\x01\x02\x00\x00\x00\x00\x00\x08";
    let none = b"";
    show_nest(out, b"15 reports, empty", 15, none)?;
    show_nest(out, b"16 reports, empty", 16, none)?;
    show_nest(out, b"17 reports, empty", 17, none)?;
    show_nest(out, b"18 reports, empty", 18, none)?;
    show_nest(out, b"15 reports of a query", 15, query)?;
    show_nest(out, b"16 reports of a query", 16, query)?;
    show_nest(out, b"17 reports of a query", 17, query)?;
    show_nest(out, b"1 report of half a query", 1, b"\x01\x02\x00\x00")?;
    show_nest(
        out,
        b"1 report of a version 9",
        1,
        b"\x09\x02\x00\x00\x00\x00\x00\x08",
    )?;
    show_nest(
        out,
        b"1 report of a query and a byte",
        1,
        b"\x01\x02\x00\x00\x00\x00\x00\x08\x99",
    )?;
    show_walk(out, b"no report", query)?;
    show_walk(out, b"nothing", none)
}

fn encodings(out: &impl Print) -> io::Result<()> {
    let none = Place { start: 0, len: 0 };
    let five = b"hello";
    let bad = b"\xc0\x80";
    let twenty = b"01234567890123456789";
    show_encode(
        out,
        b"report of hello",
        report(Place { start: 0, len: 5 }, Place { start: 0, len: 5 }),
        five,
        64,
    )?;
    show_encode(
        out,
        b"report, room 25",
        report(Place { start: 0, len: 5 }, Place { start: 0, len: 5 }),
        five,
        25,
    )?;
    show_encode(
        out,
        b"report, copy outside",
        report(Place { start: 1, len: 5 }, none),
        five,
        64,
    )?;
    show_encode(
        out,
        b"report, text outside",
        report(none, Place { start: 6, len: 0 }),
        five,
        64,
    )?;
    show_encode(
        out,
        b"report, text at the end",
        report(none, Place { start: 5, len: 0 }),
        five,
        64,
    )?;
    show_encode(
        out,
        b"report, text no UTF-8",
        report(none, Place { start: 0, len: 2 }),
        bad,
        64,
    )?;
    show_encode(
        out,
        b"report, no UTF-8 and no room",
        report(none, Place { start: 0, len: 2 }),
        bad,
        0,
    )?;
    show_encode(
        out,
        b"report, outside and no UTF-8",
        report(Place { start: 3, len: 0 }, Place { start: 0, len: 2 }),
        bad,
        0,
    )?;
    show_encode(
        out,
        b"key in v0",
        key(RtrProtocolVersion::V0, 0, 20, none),
        twenty,
        64,
    )?;
    show_encode(
        out,
        b"key of 19",
        key(RtrProtocolVersion::V1, 0, 19, none),
        twenty,
        64,
    )?;
    show_encode(
        out,
        b"key outside",
        key(RtrProtocolVersion::V1, 1, 20, none),
        twenty,
        64,
    )?;
    show_encode(
        out,
        b"key, room 33",
        key(RtrProtocolVersion::V1, 0, 20, none),
        twenty,
        33,
    )
}

fn end_of_data(version: RtrProtocolVersion, refresh: Option<u32>, expire: Option<u32>) -> RtrPdu {
    RtrPdu::EndOfData(RtrEndOfData {
        version,
        session_id: 4660,
        serial_number: 7,
        refresh_interval: refresh,
        retry_interval: None,
        expire_interval: expire,
    })
}

fn ends_of_data(out: &impl Print) -> io::Result<()> {
    let none = b"";
    show_encode(
        out,
        b"end of data, defaults",
        end_of_data(RtrProtocolVersion::V1, None, None),
        none,
        24,
    )?;
    show_encode(
        out,
        b"end of data, one given",
        end_of_data(RtrProtocolVersion::V1, Some(1), None),
        none,
        64,
    )?;
    show_encode(
        out,
        b"end of data in v0",
        end_of_data(RtrProtocolVersion::V0, Some(1), Some(1)),
        none,
        12,
    )?;
    show_encode(
        out,
        b"end of data, room 23",
        end_of_data(RtrProtocolVersion::V1, Some(1), Some(1)),
        none,
        23,
    )?;
    show_encode(out, b"prefix out of rule", prefix(255, 255, 3), none, 20)
}

fn prefix(flags: u8, prefix_length: u8, max_length: u8) -> RtrPdu {
    RtrPdu::IPv4Prefix(RtrIPv4Prefix {
        version: RtrProtocolVersion::V1,
        flags,
        prefix_length,
        max_length,
        prefix: 3221225985,
        asn: 64496,
    })
}

fn say_run(out: &impl Print, answer: Result<(RtrPdu, usize), RtrError>) -> io::Result<()> {
    match answer {
        Ok((pdu, _)) => say_number(out, b"version=", pdu.version().to_u8() as u64),
        Err(error) => say_refusal(out, error),
    }
}

// Two Reset Queries in a row, read by place.
fn show_run(out: &impl Print, label: &[u8], at: usize) -> io::Result<()> {
    let run = b"\x01\x02\x00\x00\x00\x00\x00\x08\x00\x02\x00\x00\x00\x00\x00\x08";
    let read = rtr_codec::read_at(run, at);
    say(out, label)?;
    say(out, b": ")?;
    say_run(out, read.answer)?;
    say_number(out, b" next=", read.next as u64)?;
    say(out, b"\n")
}

fn runs(out: &impl Print) -> io::Result<()> {
    show_run(out, b"run at 0", 0)?;
    show_run(out, b"run at 1", 1)?;
    show_run(out, b"run at 8", 8)?;
    show_run(out, b"run at 15", 15)?;
    show_run(out, b"run at 16", 16)?;
    show_run(out, b"run at 17", 17)?;
    show_run(out, b"run at the largest place", 18446744073709551615)
}

fn main(rt: HostRuntime) -> io::Result<()> {
    texts(&rt)?;
    nests(&rt)?;
    encodings(&rt)?;
    ends_of_data(&rt)?;
    runs(&rt)?;
    show_place(&rt, b"place (5, 0) of 5", 5, 0)?;
    show_place(&rt, b"place (6, 0) of 5", 6, 0)?;
    show_place(&rt, b"place (1, 4) of 5", 1, 4)?;
    show_place(&rt, b"place (1, 5) of 5", 1, 5)?;
    show_place(&rt, b"place (1, largest) of 5", 1, 18446744073709551615)
}
