//! The output of the program.
use crate::reply_text::{hub_error, write_reply};
use crate::stop::Stop;
use rr_protocol::{HubCreateError, Reply};
use std::io::Write;

/// Writes a line of two parts.
pub(crate) fn tell<W: Write>(output: &mut W, first: &str, second: &str) -> Result<(), Stop> {
    match writeln!(output, "{first}{second}") {
        Ok(()) => Ok(()),
        Err(_) => Err(Stop::WriteFault),
    }
}

/// Writes why no hub was made, as a reply. Returns why the program ends: the hub was refused, or that could not be
/// written.
pub(crate) fn refuse_hub<W: Write>(output: &mut W, error: HubCreateError) -> Stop {
    match tell(output, "error ", hub_error(error)) {
        Ok(()) => Stop::Refused,
        Err(stop) => stop,
    }
}

/// Writes replies, one a line.
pub(crate) fn write_replies<W: Write>(
    output: &mut W,
    replies: &[Reply<u64, u64>],
) -> Result<(), Stop> {
    for reply in replies {
        match write_reply(output, reply) {
            Ok(()) => {}
            Err(_) => return Err(Stop::WriteFault),
        }
    }
    Ok(())
}
