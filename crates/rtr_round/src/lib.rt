// Demand 2 of the calls. Reading and encoding undo each other, and where they do not: proofs/RoundTrip has it of the definitions, and the functions below make the calls on lent memory, so that
// proofs/Calls can say it of what the calls leave. No crate calls them.
#![tactic(auto)]

ghost use Rattle.rtr_round.specs.Calls.{Recoded, Sent};

use rtr_codec::{RtrError, parse_rtr_pdu};
use rtr_encode::{EncodeError, encode};
use rtr_models::RtrPdu;

// Reads a slice and encodes what was read.
fn recode(
    input: &[u8],
    out: &mut [u8],
) -> Result<(RtrPdu, usize, Result<usize, EncodeError>), RtrError>
    ensures { Recoded input.now out.old result out.new }
{
    let (pdu, n) = parse_rtr_pdu(input)?;
    Ok((pdu, n, encode(pdu, input, out)))
}

// Encodes a PDU.
fn send(pdu: RtrPdu, input: &[u8], out: &mut [u8]) -> Result<usize, EncodeError>
    ensures { Sent pdu input.now out.old result out.new }
{
    encode(pdu, input, out)
}
