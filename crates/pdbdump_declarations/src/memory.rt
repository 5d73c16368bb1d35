//! Results of calls that fail only if an allocation does.

use std::alloc::AllocError;

/// The result of a call that fails only if an allocation fails.
pub(crate) type AllocResult<T> = Result<T, AllocError>;
