//! The lists that calls are handed.
use carry::{Corner, Turn};

/// The lists of a caller, of which its calls are handed parts.
#[derive(Drop)]
pub struct Desk<'l, L> {
    pub turns: &'l mut [Turn],
    pub corners: &'l mut [Corner],
    pub labels: &'l mut [L],
    pub numbers: &'l mut [u16],
    pub marks: &'l mut [u8],
}
