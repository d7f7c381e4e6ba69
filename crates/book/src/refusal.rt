use std::error::Error;
use std::fmt;

/// The most entries that one command gives: one, and two for each order that can rest.
pub const MOST_ENTRIES: usize = 2_049;

/// The list of entries is under 2,049.
#[derive(Clone, Copy, PartialEq, Eq, Debug)]
pub struct ListTooShort;

impl fmt::Display for ListTooShort {
    fn fmt<W: fmt::Write>(&self, f: &mut fmt::Formatter<W>) -> fmt::Result {
        write!(f, "the list of entries is under {MOST_ENTRIES}")
    }
}

impl Error for ListTooShort {}
