// The stream's search.
use rtr_models::{RtrPdu, RtrResetQuery};
use rtr_numbers::{at, error_value, put_numbers};
use rtr_pdu_numbers::put_pdu;
use rtr_stream::{Lies, SearchError, Stream, StreamError};

// 0: found; 1 to 12: refused; 21: more is needed; 22.
fn search_number(answer: Result<Option<(RtrPdu, Lies)>, SearchError>) -> u8 {
    match answer {
        Ok(Some(_)) => 0,
        Err(SearchError::Refused(error)) => error.number(),
        Ok(None) => 21,
        Err(SearchError::NotAStream) => 22,
    }
}

// The PDU that was found; another where there is none.
fn search_pdu(answer: Result<Option<(RtrPdu, Lies)>, SearchError>) -> RtrPdu {
    match answer {
        Ok(Some((pdu, _))) => pdu,
        _ => RtrPdu::ResetQuery(RtrResetQuery::new_v0()),
    }
}

// Where a PDU lies (1 in the piece, 2 in the hold), its place and length there.
fn lies_said(lies: Lies) -> [u64; 3] {
    match lies {
        Lies::InPiece(place) => [1, place.start as u64, place.len as u64],
        Lies::InHold(place) => [2, place.start as u64, place.len as u64],
    }
}

fn error_said(error: StreamError) -> [u64; 3] {
    match error {
        StreamError::Read(read) => [
            error_value(read, 0),
            error_value(read, 1),
            error_value(read, 2),
        ],
        StreamError::OverHold { length } => [length as u64, 0, 0],
    }
}

// Where the PDU lies, or a refusal's values.
fn search_said(answer: Result<Option<(RtrPdu, Lies)>, SearchError>) -> [u64; 3] {
    match answer {
        Ok(Some((_, lies))) => lies_said(lies),
        Err(SearchError::Refused(error)) => error_said(error),
        _ => [0, 0, 0],
    }
}

// One search: its number. The state is held and next, before and after; `said` is where the PDU lies, its place and length there, or a refusal's values.
#[unsafe(no_mangle)]
pub extern "C" fn test_search(
    hold: &mut [u8],
    piece: &[u8],
    state: &mut [u64],
    said: &mut [u64],
    pdu: &mut [u64],
) -> u8 {
    let held = at(state, 0) as usize;
    let from = at(state, 1) as usize;
    let searched = rtr_stream::search(hold, Stream { held }, piece, from);
    let answer = searched.answer;
    let left = [searched.stream.held as u64, searched.next as u64];
    let _ = put_numbers(state, &left);
    let lies = search_said(answer);
    let _ = put_numbers(said, &lies);
    let _ = put_pdu(search_pdu(answer), 0, pdu);
    search_number(answer)
}
