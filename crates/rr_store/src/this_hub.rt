//! Stops an unproved run that names a port or a handle of another hub.
ghost use Rattle.std.specs.Prelude.{◌≡◌, IsSome, Some};

/// Returns the entry that was found under the number of a port or of a handle.
///
/// A proved caller names only ports and handles of its hub. An unproved run that names one of another hub ends here,
/// with a list of the calls that led here.
#[inline(always)]
pub(crate) fn of_this_hub<T: Copy>(found: Option<T>) -> T
    requires { IsSome found }
    ensures { found ≡ Some result }
{
    match found {
        Some(found) => found,
        None => unreachable!(),
    }
}
