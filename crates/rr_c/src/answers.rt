//! The return values of exports: 0, or the code of a refusal.
ghost use Rattle.std.specs.Prelude.{◌≡◌};
ghost use Rattle.rr_checked.specs.Codes.{code};
ghost use Rattle.rr_bytes.specs.Writes.{write_code};
ghost use Rattle.rr_c.specs.Answers.{answer_code, create_code, written};

use rr_bytes::{HubCreateError, Refusal, WriteRefusal};

/// The call was carried out.
pub(crate) const OK: u32 = 0;

/// The id names no live port or handle.
pub(crate) const UNKNOWN: u32 = 1;

/// Nothing is queued.
pub(crate) const NOTHING: u32 = 6;

/// A number is not that of a strategy.
pub(crate) const INVALID_SETTING: u32 = 7;

/// Returns the code of a call's result, and writes its value.
#[inline(always)]
pub(crate) fn write<V: Copy>(answer: Result<V, Refusal>, value: &mut V) -> u32
    ensures code { result ≡ answer_code code answer }
    ensures value { value.new ≡ written value.old answer }
{
    match answer {
        Ok(answered) => {
            *value = answered;
            OK
        }
        Err(refusal) => refusal.code(),
    }
}

/// Returns the code of the result of a call without a value.
#[inline(always)]
pub(crate) fn done(answer: Result<(), Refusal>) -> u32
    ensures { result ≡ answer_code code answer }
{
    match answer {
        Ok(()) => OK,
        Err(refusal) => refusal.code(),
    }
}

/// Returns the code of a write's result.
#[inline(always)]
pub(crate) fn wrote(answer: Result<(), WriteRefusal>) -> u32
    ensures { result ≡ answer_code write_code answer }
{
    match answer {
        Ok(()) => OK,
        Err(refusal) => refusal.code(),
    }
}

/// Returns the code of a refusal to make a hub.
pub(crate) fn code_of_create(error: HubCreateError) -> u32
    ensures { result ≡ create_code error }
{
    match error {
        HubCreateError::ZeroLimit => 60,
        HubCreateError::LimitsTooLarge => 61,
        HubCreateError::OutOfMemory => 62,
    }
}
