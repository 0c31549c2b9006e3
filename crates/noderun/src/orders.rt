// From a line of the input to an order.
use crate::numbers::number;
use model::order::Ask;
use std::str::from_utf8;

// The most bytes that an order's line has.
const LONGEST: usize = 200;

// The order that a line gives, if it gives one.
pub(crate) fn ask_of(line: &[u8]) -> Option<Ask> {
    if line.len() > LONGEST {
        return None;
    }
    read_ask(from_utf8(line).ok()?)
}

// Reads `release TASK UNITS DRAW` or `slots N`, with single spaces.
fn read_ask(text: &str) -> Option<Ask> {
    let mut words = text.split(' ');
    let ask = match words.next()? {
        "release" => Ask::Release {
            task: number(words.next()?)?,
            units: number(words.next()?)?,
            draw: number(words.next()?)?,
        },
        "slots" => Ask::Slots {
            count: number(words.next()?)?,
        },
        _ => return None,
    };
    words.next().is_none().then_some(ask)
}
