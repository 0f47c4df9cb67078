// The stream: pieces of any length go in, whole PDUs come out; what is not whole yet is kept in a lent hold. Every call takes every input;
// each byte is copied once at the most, and not at all where its PDU lies whole in the piece. Nothing here knows of a receiver.
#![tactic(auto)]

ghost use Rattle.std.specs.Prelude.{true, ◌++◌, ◌≡◌, ◌+◌, ◌-◌, ◌≤◌, ◌<◌, length, take, drop};
ghost use Rattle.rtr_codec.specs.Answers.{number_of};
ghost use Rattle.rtr_stream.specs.Search.{is_stream, search, search_said, stream_refusal, outcome_of};
ghost use Rattle.rtr_stream.specs.Private.{LengthTested, Turned, ReadHere, HeaderHere, search_here};

use rtr_codec::{RtrError, bytes_needed, parse_rtr_pdu};
use rtr_models::{Place, RtrPdu};

// The longest PDU that is listened to: an Error Report with a copy and a text of 65,535 bytes each.
pub const RTR_MAX_ERROR_REPORT_LEN: u32 = 131086;

// A stream between two pieces: how many bytes of the hold are held.
#[derive(Clone, Copy)]
pub struct Stream {
    pub held: usize,
}

impl Stream {
    pub fn new() -> Stream
        ensures { result ≡ record { held = 0 } }
    {
        Stream { held: 0 }
    }
}

// Why a stream stops.
#[derive(Clone, Copy)]
pub enum StreamError {
    Read(RtrError),
    OverHold { length: u32 },
}

impl StreamError {
    // Document 01's number of it.
    pub fn number(self) -> u8
        ensures { result ≡ number_of (stream_refusal self) }
    {
        match self {
            StreamError::Read(error) => error.number(),
            StreamError::OverHold { length: _ } => 12,
        }
    }
}

// Where the bytes of a PDU lie that was found; its own places count from there. In the hold they stand until the next search.
#[derive(Clone, Copy)]
pub enum Lies {
    InPiece(Place),
    InHold(Place),
}

// Why a search breaks off without a PDU and without the wish for more: a refusal of the stream, or 22.
#[derive(Clone, Copy)]
pub enum SearchError {
    Refused(StreamError),
    NotAStream,
}

// What a search answers: a PDU and where it lies, or the wish for more.
pub type StreamAnswer = Result<Option<(RtrPdu, Lies)>, SearchError>;

// The answer, the place in the piece to go on from, and the stream then.
#[derive(Clone, Copy)]
pub struct Searched {
    pub stream: Stream,
    pub next: usize,
    pub answer: StreamAnswer,
}

#[derive(Clone, Copy)]
struct Turn {
    held: usize,
    next: usize,
    then: Option<StreamAnswer>,
}

// 4 outside 8 to 131,086, then 12 over the hold.
fn test_length(length: u32, pdu_type: u8, hold_len: usize) -> Result<(), StreamError>
    ensures { LengthTested hold_len length pdu_type result }
{
    if length < 8 {
        return Err(StreamError::Read(RtrError::InvalidLength {
            expected: 8,
            actual: length,
            pdu_type,
        }));
    }
    if length > RTR_MAX_ERROR_REPORT_LEN {
        return Err(StreamError::Read(RtrError::InvalidLength {
            expected: RTR_MAX_ERROR_REPORT_LEN,
            actual: length,
            pdu_type,
        }));
    }
    if length as usize > hold_len {
        return Err(StreamError::OverHold { length });
    }
    Ok(())
}

// Whether a hold and a count make a stream: 8 bytes or more, no more held than it has, and what is held waits, that is, its header, if it is in,
// passes the test and names more than is held.
pub fn is_stream(hold: &[u8], held: usize) -> bool
    ensures { result ≡ is_stream hold.now held }
{
    if hold.len() < 8 {
        return false;
    }
    if held > hold.len() {
        return false;
    }
    if held < 8 {
        return true;
    }
    let length = bytes_needed(&hold[..held]);
    if length > RTR_MAX_ERROR_REPORT_LEN {
        return false;
    }
    let whole = length as usize;
    if whole > hold.len() {
        return false;
    }
    held < whole
}

// A part goes into the hold behind what is held. Not by `copy_from_slice`: it calls C's memmove, and the library for hosts is to need memset alone.
fn put_part(hold: &mut [u8], held: usize, part: &[u8])
    requires { held + length part.now ≤ length hold.old }
    ensures { take (held + length part.now) hold.new ≡ take held hold.old ++ part.now }
{
    for (i, byte) in part.iter().enumerate() {
        hold[held + i] = *byte;
    }
}

// The piece runs out: all that is left of it is held.
fn keep_rest(hold: &mut [u8], held: usize, piece: &[u8], at: usize) -> Turn
    requires { (at ≤ length piece.now) × (held + (length piece.now - at) ≤ length hold.old) }
    ensures { (result ≡ record { held = held + (length piece.now - at); next = length piece.now; then = Some (Ok None) }) × (take (held + (length piece.now - at)) hold.new ≡ take held hold.old ++ drop at piece.now) }
{
    put_part(hold, held, &piece[at..]);
    Turn {
        held: held + (piece.len() - at),
        next: piece.len(),
        then: Some(Ok(None)),
    }
}

// The search is over, and nothing is held. In line, for an instruction less a PDU.
#[inline(always)]
fn over(next: usize, answer: StreamAnswer) -> Turn
    ensures { result ≡ record { held = 0; next = next; then = Some answer } }
{
    Turn {
        held: 0,
        next,
        then: Some(answer),
    }
}

// Nothing is held: a PDU that lies whole in the piece is read where it lies.
fn from_piece(hold: &mut [u8], piece: &[u8], at: usize) -> Turn
    requires { (8 ≤ length hold.old) × (at ≤ length piece.now) }
    ensures { Turned hold.old 0 piece.now at result hold.new }
{
    let left = piece.len() - at;
    if left < 8 {
        return keep_rest(hold, 0, piece, at);
    }
    let length = bytes_needed(&piece[at..]);
    if let Err(error) = test_length(length, piece[at + 1], hold.len()) {
        return over(at + 8, Err(SearchError::Refused(error)));
    }
    let whole = length as usize;
    if left < whole {
        return keep_rest(hold, 0, piece, at);
    }
    let end = at + whole;
    match parse_rtr_pdu(&piece[at..end]) {
        Ok((pdu, _)) => {
            let place = Place {
                start: at,
                len: whole,
            };
            over(end, Ok(Some((pdu, Lies::InPiece(place)))))
        }
        Err(error) => over(end, Err(SearchError::Refused(StreamError::Read(error)))),
    }
}

// The hold's first bytes are a PDU's, all of them. Its match stands in `from_piece` too: as one function with `?` it takes 4 instructions more a PDU, of 185.
fn read_hold(hold: &[u8], whole: usize, next: usize) -> Turn
    requires { whole ≤ length hold.now }
    ensures { ReadHere hold.now whole next result }
{
    match parse_rtr_pdu(&hold[..whole]) {
        Ok((pdu, _)) => {
            let place = Place {
                start: 0,
                len: whole,
            };
            over(next, Ok(Some((pdu, Lies::InHold(place)))))
        }
        Err(error) => over(next, Err(SearchError::Refused(StreamError::Read(error)))),
    }
}

// The header is in: its length is tested; a PDU of 8 bytes is whole, for any other the search goes round.
fn with_header(hold: &[u8], next: usize) -> Turn
    requires { 8 ≤ length hold.now }
    ensures { HeaderHere hold.now next result }
{
    let length = bytes_needed(&hold[..8]);
    if let Err(error) = test_length(length, hold[1], hold.len()) {
        return over(next, Err(SearchError::Refused(error)));
    }
    if length == 8 {
        return read_hold(hold, 8, next);
    }
    Turn {
        held: 8,
        next,
        then: None,
    }
}

// Something is held: first the header is made whole, then the PDU.
fn from_hold(hold: &mut [u8], held: usize, piece: &[u8], at: usize) -> Turn
    requires { (is_stream hold.old held ≡ true) × (0 < held) × (at ≤ length piece.now) }
    ensures { Turned hold.old held piece.now at result hold.new }
{
    let wanted = bytes_needed(&hold[..held]) as usize;
    let lacking = wanted - held;
    if piece.len() - at < lacking {
        return keep_rest(hold, held, piece, at);
    }
    let end = at + lacking;
    put_part(hold, held, &piece[at..end]);
    if held < 8 {
        return with_header(hold, end);
    }
    read_hold(hold, wanted, end)
}

// One turn of the search where something is held.
fn one_turn(hold: &mut [u8], held: usize, piece: &[u8], at: usize) -> Turn
    requires { (is_stream hold.old held ≡ true) × (0 < held) }
    ensures { Turned hold.old held piece.now at result hold.new }
{
    if at >= piece.len() {
        return Turn {
            held,
            next: at,
            then: Some(Ok(None)),
        };
    }
    from_hold(hold, held, piece, at)
}

// The search where nothing is held: it is over at once.
fn search_piece(hold: &mut [u8], piece: &[u8], at: usize) -> Searched
    requires { 8 ≤ length hold.old }
    ensures { search_said result hold.new piece.now ≡ outcome_of 0 at (search_here hold.old 0 piece.now at) }
{
    if at >= piece.len() {
        return Searched {
            stream: Stream { held: 0 },
            next: at,
            answer: Ok(None),
        };
    }
    let t = from_piece(hold, piece, at);
    let then = t.then;
    match then {
        Some(answer) => Searched {
            stream: Stream { held: t.held },
            next: t.next,
            answer,
        },
        None => Searched {
            stream: Stream { held: 0 },
            next: at,
            answer: Ok(None),
        },
    }
}

// Searches the piece from a place on for the next PDU. Where something is held it goes round until it breaks off with a whole PDU, a refusal, or the wish for
// more (at most twice: the header, then the PDU).
pub fn search(hold: &mut [u8], stream: Stream, piece: &[u8], at: usize) -> Searched
    ensures says { search_said result hold.new piece.now ≡ search hold.old stream.held piece.now at }
    ensures hold_len_unchanged { length hold.new ≡ length hold.old }
{
    let mut held = stream.held;
    let mut next = at;
    if !is_stream(hold, held) {
        return Searched {
            stream,
            next,
            answer: Err(SearchError::NotAStream),
        };
    }
    if held == 0 {
        return search_piece(hold, piece, at);
    }
    let answer = loop {
        let t = one_turn(hold, held, piece, next);
        held = t.held;
        next = t.next;
        let then = t.then;
        if let Some(done) = then {
            break done;
        }
    };
    Searched {
        stream: Stream { held },
        next,
        answer,
    }
}
