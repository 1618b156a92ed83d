//! The fields of a body, by their offsets in bytes.
#![tactic(auto, unfolding(crate::specs::Layout::number_at, crate::specs::Layout::bytes_at))]

ghost use Rattle.std.specs.Prelude.{◌≡◌, ◌+◌, ◌≤◌, length};
ghost use Rattle.itch_messages.specs.Layout.{bytes_at, number_at};

use byteorder::{BigEndian, ByteOrder};

/// The byte at `at`.
#[inline(always)]
pub fn u8_at(body: &[u8], at: usize) -> u8
    requires { at + 1 ≤ length body.now }
    ensures { result ≡ number_at at 1 body.now }
{
    body[at]
}

/// The number in the 2 bytes from `at` on.
#[inline(always)]
pub fn u16_at(body: &[u8], at: usize) -> u16
    requires { at + 2 ≤ length body.now }
    ensures { result ≡ number_at at 2 body.now }
{
    BigEndian::read_u16(&body[at..])
}

/// The number in the 4 bytes from `at` on.
#[inline(always)]
pub fn u32_at(body: &[u8], at: usize) -> u32
    requires { at + 4 ≤ length body.now }
    ensures { result ≡ number_at at 4 body.now }
{
    BigEndian::read_u32(&body[at..])
}

/// The number in the 6 bytes from `at` on.
#[inline(always)]
pub fn u48_at(body: &[u8], at: usize) -> u64
    requires { at + 6 ≤ length body.now }
    ensures { result ≡ number_at at 6 body.now }
{
    BigEndian::read_u48(&body[at..])
}

/// The number in the 8 bytes from `at` on.
#[inline(always)]
pub fn u64_at(body: &[u8], at: usize) -> u64
    requires { at + 8 ≤ length body.now }
    ensures { result ≡ number_at at 8 body.now }
{
    BigEndian::read_u64(&body[at..])
}

/// The `N` bytes from `at` on.
#[inline(always)]
pub fn text_at<const N: usize>(body: &[u8], at: usize) -> [u8; N]
    requires { at + N ≤ length body.now }
    ensures { result ≡ bytes_at at N body.now }
{
    let mut text = [0; N];
    text.copy_from_slice(&body[at..at + N]);
    text
}
