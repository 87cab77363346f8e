//! Numbers in a page.

ghost use Rattle.std.specs.Prelude.{◌≡◌, ◌++◌, ◌+◌, ◌<◌, [], ◌∷◌, OnOk};
ghost use Rattle.std.specs.Fmt.{decimal};

use std::alloc::AllocError;

/// Appends a decimal digit.
fn push_digit(text: &mut Vec<u8>, digit: usize) -> Result<(), AllocError>
    requires { digit < 10 }
    ensures { OnOk result (text.new.items ≡ text.old.items ++ (48 + digit) ∷ []) }
{
    text.extend_from_slice(&[digit as u8 + b'0'])
}

/// Appends a number in decimal digits.
pub fn push_decimal(text: &mut Vec<u8>, number: usize) -> Result<(), AllocError>
    ensures { OnOk result (text.new.items ≡ text.old.items ++ decimal number) }
{
    if number < 10 {
        push_digit(text, number)
    } else {
        push_decimal(text, number / 10)?;
        push_digit(text, number % 10)
    }
}
