// A route's state by the scan, beside the library's call, which goes by the table's order.
use rtr_numbers::session_of;
use rtr_origin::{Route, RoutePrefix, RouteState, ValidateError, route_of, validate_by_scan};

// Numbers that are no route's are asked of as one that is too long, so that 22 and 21 come first.
fn asked(numbers: &[u32]) -> Route {
    route_of(numbers).unwrap_or(Route {
        prefix: RoutePrefix::IPv4(0),
        length: 255,
        origin: 0,
    })
}

fn state_number(answer: Result<RouteState, ValidateError>) -> u64 {
    match answer {
        Ok(state) => state.number() as u64,
        Err(_) => 0,
    }
}

fn answer_number(answer: Result<RouteState, ValidateError>) -> u8 {
    match answer {
        Ok(_) => 0,
        Err(error) => error.number(),
    }
}

#[unsafe(no_mangle)]
pub extern "C" fn test_validate_by_scan(
    session: &[u64],
    live: &[u32],
    working: &[u32],
    hold: &[u8],
    route: &[u32],
    state: &mut u64,
) -> u8 {
    *state = 0;
    if route.len() != 6 {
        return 22;
    }
    let Some(s) = session_of(session) else {
        return 22;
    };
    let answer = validate_by_scan(s, live, working, hold, asked(route));
    *state = state_number(answer);
    answer_number(answer)
}
