//! A remote procedure call: a client asks a server to divide.
//!
//! ```text
//! 17 by 5: 3, remainder 2
//! 17 by 0: the divisor is zero
//! 144 by 12: 12, remainder 0
//! ```
//!
//! `rr_callers::each::call_each` carries each question to the server and its answer back. Its contract says that the
//! answers are what `divide` returned for the questions, in their order; or an error says which call was refused.
#![tactic(auto, using(rr_ports::proofs::Frames::callers), unfolding(rr_ports::specs::Facts::Keeps, rr_ports::specs::Facts::IsFree))]

use rr_callers::connected::Connected;
use rr_callers::each::call_each;
use thiserror::Error;

/// A client's question.
#[derive(Clone, Copy, Debug)]
struct Division {
    dividend: u64,
    divisor: u64,
}

/// A server's answer.
#[derive(Clone, Copy, Debug)]
struct Quotient {
    quotient: u64,
    remainder: u64,
}

/// Why a server has no quotient.
#[derive(Clone, Copy, Debug, Error)]
enum DivideError {
    /// There is no number that the quotient could be.
    #[error("the divisor is zero")]
    DivisorIsZero,
}

/// Divides.
fn divide(asked: Division) -> Result<Quotient, DivideError> {
    if asked.divisor == 0 {
        return Err(DivideError::DivisorIsZero);
    }
    Ok(Quotient {
        quotient: asked.dividend / asked.divisor,
        remainder: asked.dividend % asked.divisor,
    })
}

/// Has a server divide, and prints what comes back for each question.
pub(crate) fn show(rt: &HostRuntime) -> anyhow::Result<()> {
    let questions = [
        Division {
            dividend: 17,
            divisor: 5,
        },
        Division {
            dividend: 17,
            divisor: 0,
        },
        Division {
            dividend: 144,
            divisor: 12,
        },
    ];
    let mut ports = Connected::new(rt.alloc())?;
    let ask = |asked: Division| divide(asked);
    let answers = call_each(
        rt.alloc(),
        &mut ports.hub,
        &ports.client,
        &ports.server,
        &questions,
        &ask,
    );
    ports.end();
    for (asked, answer) in questions.iter().zip(answers?.iter()) {
        match answer {
            Ok(told) => println!(rt;
                "{} by {}: {}, remainder {}",
                asked.dividend, asked.divisor, told.quotient, told.remainder
            )?,
            Err(error) => println!(rt; "{} by {}: {error}", asked.dividend, asked.divisor)?,
        }
    }
    Ok(())
}
