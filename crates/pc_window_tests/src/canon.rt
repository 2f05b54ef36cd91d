//! Keys of windows.
ghost use Rattle.std.specs.Prelude.{◌<◌};
ghost use Rattle.pc_canon.specs.Keyed.{HasKey};

use crate::sums::sum_window;
use pc_canon::{
    WindowKey, key, laws_of_canonical_forms, laws_of_keys, laws_of_shifts, same_up_to_shift,
};
use pc_window::{Window, WindowError};
use std::alloc::{AllocError, Global};
use std::test::Fail;

/// The key of such a window.
fn sum_key(
    alloc: Global,
    from: u32,
    to: u32,
    literal: i32,
    tag: u32,
) -> Result<WindowKey, WindowError>
    requires from { from < 8 }
    requires to { to < 8 }
{
    let window = sum_window(alloc, from, to, literal, tag)?;
    key(alloc, &window)
}

/// What is written of `v1 = v0 + 1; print(v1);` by hand: the sum of the first name and 1, the print of
/// the last name that was defined, the end; the sum alone is the front; a parameter and a definition,
/// each with the constant 0 and terms; the columns of their variables, the later one first; the
/// limits, and no loop. Each of these numbers is a byte twice as large.
const BYTES: &[u8] = &[
    0, 0, 0, 0, 0, 0, 0, 2, 2, 0, 0, 2, 8, 0, 0, 6, 0, 4, 2, 0, 2, 0, 2, 0, 2, 0, 2, 2, 2, 2, 2, 0,
    2, 2, 0, 2, 2, 0, 0, 8, 2, 4, 0,
];

/// Literals at which bytes end, the last ones below and the first ones of one more byte, and the ends of 32 bits; with
/// their bytes, as Protocol Buffers encode signed integers.
const DIGITS: [(i32, &[u8]); 10] = [
    (0, &[0]),
    (-1, &[1]),
    (1, &[2]),
    (63, &[126]),
    (-64, &[127]),
    (64, &[128, 1]),
    (-65, &[129, 1]),
    (150, &[172, 2]),
    (2147483647, &[254, 255, 255, 255, 15]),
    (-2147483648, &[255, 255, 255, 255, 15]),
];

/// `BYTES` with these in the place of the literal's.
fn with_digits(alloc: Global, digits: &[u8]) -> Result<Vec<u8>, AllocError> {
    let mut bytes = Vec::from_slice(alloc, &BYTES[..8])?;
    bytes.extend_from_slice(digits)?;
    bytes.extend_from_slice(&BYTES[9..])?;
    Ok(bytes)
}

/// Whether a literal has these bytes in a key.
fn has_digits(alloc: Global, literal: i32, digits: &[u8]) -> Result<bool, WindowError> {
    let wanted = with_digits(alloc, digits)?;
    let key = sum_key(alloc, 0, 1, literal, 0)?;
    Ok(key.bytes.as_slice() == wanted.as_slice())
}

/// Whether a key is this, with this parameter and this first tag.
fn is_key(key: &WindowKey, bytes: &[u8], name: u32, tag: u32) -> bool {
    key.bytes.as_slice() == bytes && key.names.as_slice() == [name].as_slice() && key.tag == tag
}

/// Whether windows that differ in their names and tags alone have one key.
fn names_and_tags_do_not_show(alloc: Global) -> Result<bool, WindowError> {
    let one = sum_key(alloc, 0, 1, 1, 0)?;
    let other = sum_key(alloc, 3, 5, 1, 7)?;
    Ok(is_key(&one, BYTES, 0, 0) && is_key(&other, BYTES, 3, 7))
}

/// Whether a window is the same, up to a shift, as that of a sum.
fn is_same_sum(
    alloc: Global,
    window: &Window,
    from: u32,
    to: u32,
    literal: i32,
    tag: u32,
) -> Result<bool, WindowError>
    requires window { HasKey window.now }
    requires from { from < 8 }
    requires to { to < 8 }
{
    let other = sum_window(alloc, from, to, literal, tag)?;
    same_up_to_shift(alloc, window, &other)
}

/// Whether a window with other names and tags is the same up to a shift, and one with another literal is
/// not.
fn literals_show(alloc: Global) -> Result<bool, WindowError> {
    let window = sum_window(alloc, 0, 1, 1, 0)?;
    if !is_same_sum(alloc, &window, 3, 5, 1, 7)? {
        return Ok(false);
    }
    Ok(!is_same_sum(alloc, &window, 0, 1, 2, 0)?)
}

#[test]
fn numbers_near_0_take_one_byte(rt: HostRuntime) -> Result<(), Fail> {
    for (literal, digits) in DIGITS {
        assert!(&rt; has_digits(rt.alloc(), literal, digits)?, "{literal}");
    }
    Ok(())
}

#[test]
fn windows_that_differ_in_names_and_tags_have_one_key(rt: HostRuntime) -> Result<(), Fail> {
    let is_so = match names_and_tags_do_not_show(rt.alloc()) {
        Ok(is_so) => is_so,
        Err(_) => false,
    };
    assert!(&rt; is_so);
    Ok(())
}

#[test]
fn windows_that_differ_in_a_literal_are_not_the_same(rt: HostRuntime) -> Result<(), Fail> {
    let is_so = match literals_show(rt.alloc()) {
        Ok(is_so) => is_so,
        Err(_) => false,
    };
    assert!(&rt; is_so);
    laws_of_canonical_forms();
    laws_of_keys();
    laws_of_shifts();
    Ok(())
}
