// The nest walk: how deep an Error Report's copies of PDUs go, and where they end. Sixteen levels below the first at the most, so the
// stack is bounded whatever the input; nothing is written, and no call has a condition.
#![tactic(auto)]

ghost use Rattle.std.specs.Prelude.{◌≡◌, ◌-◌, ◌≤◌};
ghost use Rattle.rtr_codec.specs.Reading.{in_use};
ghost use Rattle.rtr_walk.specs.Walk.{walk, walk_from, walk_said};
ghost use Rattle.rtr_walk.specs.Private.{ReadFrom, walk_inside};

use rtr_codec::{RtrError, parse_rtr_pdu};
use rtr_models::{RtrPdu, RtrPduType};

// Where a walk ends.
#[derive(Clone, Copy)]
pub enum WalkEnd {
    Plain(RtrPduType),
    Empty,
    Refused(u8),
    TooDeep,
}

// Walks from the slice's first PDU, with all levels left.
pub fn walk(input: &[u8]) -> Result<(u8, WalkEnd), RtrError>
    ensures { walk_said result ≡ walk in_use input.now }
{
    let (pdu, _) = parse_rtr_pdu(input)?;
    walk_pdu(pdu, input, 16)
}

// Only a report has bytes inside; the level is what is used up of the 16. The PDU is the slice's own, so a report's part is shorter than the slice.
#[cycle(walk_pdu_walk_report)]
fn walk_pdu(pdu: RtrPdu, input: &[u8], left: u8) -> Result<(u8, WalkEnd), RtrError>
    requires { (left ≤ 16) × ReadFrom in_use pdu input.now }
    ensures { walk_said result ≡ walk_from in_use left (16 - left) pdu input.now }
{
    match pdu {
        RtrPdu::ErrorReport(report) => walk_report(report.erroneous_pdu_part(input), left),
        _ => Ok((16 - left, WalkEnd::Plain(pdu.pdu_type()))),
    }
}

// Reads a report's encapsulated bytes, one level fewer left; that the levels fall ends the recursion.
#[cycle(walk_pdu_walk_report)]
fn walk_report(part: &[u8], left: u8) -> Result<(u8, WalkEnd), RtrError>
    requires { left ≤ 16 }
    ensures { walk_said result ≡ walk_inside in_use left (16 - left) part.now }
{
    let level = 16 - left;
    if part.len() == 0 {
        return Ok((level, WalkEnd::Empty));
    }
    if left == 0 {
        return Ok((level, WalkEnd::TooDeep));
    }
    match parse_rtr_pdu(part) {
        Ok((pdu, _)) => walk_pdu(pdu, part, left - 1),
        Err(error) => Ok((level, WalkEnd::Refused(error.number()))),
    }
}
