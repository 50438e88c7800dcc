//! The least pool of a hub's limits.
use crate::line::Line;
use crate::lines::Lines;
use crate::output::{tell, write_replies};
use crate::reply_text::least_pool_error;
use crate::stop::Stop;
use crate::words::number;
use rr_protocol::Limits;
use rr_run::least_pool;
use std::alloc::Global;
use std::io::{BufRead, Write};

/// Reads the line of a hub, and writes the replies for a pool of as many slots as the argument says. Reads no further
/// line.
pub(crate) fn least<R: BufRead + Drop, W: Write>(
    alloc: Global,
    word: &str,
    input: R,
    output: &mut W,
) -> Result<(), Stop> {
    let slots = number(word).and_then(|slots| usize::try_from(slots).ok());
    let Some(slots) = slots else {
        return Err(Stop::Usage);
    };
    let mut lines = Lines::new(alloc, input)?;
    match lines.read()? {
        Some(Line::Hub(_, limits)) => write_least(alloc, &limits, slots, output),
        Some(Line::Command(_)) => Err(lines.bad_line()),
        None => Err(lines.missing_line()),
    }
}

/// Writes the replies for a pool of this many slots, or why there are none.
fn write_least<W: Write>(
    alloc: Global,
    limits: &Limits,
    slots: usize,
    output: &mut W,
) -> Result<(), Stop> {
    match least_pool(alloc, limits, slots) {
        Ok((_, replies)) => write_replies(output, replies.as_slice()),
        Err(error) => {
            tell(output, "error ", least_pool_error(error))?;
            Err(Stop::Refused)
        }
    }
}
