//! The library's calls at work, for the driver in `bench/`, which times them.
//!
//! Each export prepares what it needs of the bytes that it is given, repeats its work as often as
//! it is told, and returns the sum over all repetitions of the answers. So a call with no
//! repetitions takes the time of the preparation alone, and returns 0. Where something fails, its
//! part of the sum is missing.
#![tactic(auto)]

/// The sum after so many turns, of which each makes the next one; the first begins with 0.
macro_rules! repeated {
    ($turns:ident, $sum:ident => $next:expr) => {{
        let mut $sum = 0;
        for _ in 0..$turns {
            $sum = $next;
        }
        $sum
    }};
}

mod files;
mod finder;
mod frames;
mod names;
mod omap;
mod queries;
mod records;
mod stream;
mod types;
