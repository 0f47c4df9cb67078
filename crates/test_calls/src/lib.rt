// Calls for tests/driver, which is C: what the library for hosts (rtr_c) does not export. The stream's search, the room's calls, reading by place, a PDU's
// payloads, an End of Data with absent intervals, a route's state by the scan, how far a text is well formed, and the calls of rtr_held, whose record is lent. Numbers and slices only, as rtr_c's. Every call takes every input
// and ends; nothing is promised of what it answers, which the driver compares.
#![tactic(auto)]

pub mod held;
pub mod narrow;
pub mod reading;
pub mod room;
pub mod routes;
pub mod stream;
pub mod text;
