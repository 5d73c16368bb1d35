//! The search for the NUL that ends a text.

ghost use Rattle.std.specs.Prelude.{◌≡◌, ◌↔◌, ℕ, ◌+◌, ◌<◌, ◌≤◌, length, drop};
ghost use Rattle.std.specs.Int.{bit_at};
ghost use Rattle.memchr.specs.Find.{IsFirst, IsFirstByte, Passes, is_byte};

use memchr::memchr;
use std::simd::prelude::*;

/// Returns how many bytes are between `from` and the first NUL from there on.
///
/// As many bytes are compared at once as the slice has, up to 64: most texts end among them, so
/// that no loop's end has to be guessed. The function is large, and its callers stay small enough
/// to be inlined if it is called.
#[inline(never)]
pub(crate) fn first_nul(bytes: &[u8], from: usize) -> Option<usize>
    requires { from ≤ length bytes.now }
    ensures { IsFirstByte (is_byte 0) (drop from bytes.now) result }
{
    let place = match bytes.len() {
        64.. => place_of_nul::<64>(bytes, from),
        32.. => place_of_nul::<32>(bytes, from),
        16.. => place_of_nul::<16>(bytes, from),
        _ => return memchr(0, &bytes[from..]),
    };
    Some(place? - from)
}

/// Returns the place of the first NUL from `from` on in at least `WIDTH` bytes.
#[inline(always)]
fn place_of_nul<const WIDTH: usize>(bytes: &[u8], from: usize) -> Option<usize>
    requires width { (0 < WIDTH) × (WIDTH ≤ 64) }
    requires within { from ≤ length bytes.now }
    requires room { WIDTH ≤ length bytes.now }
    ensures { IsFirst (Passes (is_byte 0) bytes.now) from (length bytes.now) result }
{
    let mut at = from;
    while WIDTH <= bytes.len() - at {
        if let Some(place) = place_among::<WIDTH>(bytes, at, 0) {
            return Some(place);
        }
        at += WIDTH;
    }
    if at == bytes.len() {
        return None;
    }
    // The last bytes are compared together with those before them, which do not count.
    let start = bytes.len() - WIDTH;
    place_among::<WIDTH>(bytes, start, at - start)
}

/// Returns the place of the first NUL among the `WIDTH` bytes at `start`, of which the first
/// `skipped` do not count.
#[inline(always)]
fn place_among<const WIDTH: usize>(bytes: &[u8], start: usize, skipped: usize) -> Option<usize>
    requires width { WIDTH ≤ 64 }
    requires room { start + WIDTH ≤ length bytes.now }
    requires skip { skipped < WIDTH }
    ensures { IsFirst (Passes (is_byte 0) bytes.now) (start + skipped) (start + WIDTH) result }
{
    let nuls = nuls_among::<WIDTH>(bytes, start) >> skipped;
    if nuls == 0 {
        return None;
    }
    Some(start + skipped + nuls.trailing_zeros() as usize)
}

/// Returns the mask whose bit `k` says whether the byte at `start + k` is a NUL, for `WIDTH` bytes.
#[inline(always)]
fn nuls_among<const WIDTH: usize>(bytes: &[u8], start: usize) -> u64
    requires width { WIDTH ≤ 64 }
    requires room { start + WIDTH ≤ length bytes.now }
    ensures { (k : ℕ) → (bit_at result k ≡ 1) ↔ ((k < WIDTH) × Passes (is_byte 0) bytes.now (start + k)) }
{
    Simd::<u8, WIDTH>::from_slice(&bytes[start..])
        .simd_eq(Simd::splat(0))
        .to_bitmask()
}
