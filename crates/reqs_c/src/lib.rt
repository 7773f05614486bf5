#![tactic(auto)]
//! The C library: each call of `include/reqs.h`, by the crates that answer it.
//!
//! A text is a pointer to bytes and their number; the `Global` is not an argument in C. No call has a
//! precondition, and none keeps anything. The contract of each says what its reply and the caller's buffer
//! are, in terms of the texts.

mod assuming;
mod json_assuming;
mod json_lists;
mod lists;
mod markers;
mod requirements;
mod versions;

ghost use Rattle.std.specs.Prelude.{◌≡◌};

/// The version number of this interface.
#[unsafe(no_mangle)]
pub extern "C" fn reqs_abi() -> u32
    ensures { result ≡ 4 }
{
    4
}
