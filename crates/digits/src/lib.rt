// Numbers as the programs are told them.
#![tactic(auto)]

ghost use Rattle.std.specs.Prelude.{◌≤◌, length, IfSome};
ghost use Rattle.std.specs.Option.{SomeIff};
ghost use Rattle.std.specs.Str.Parse.{IsNumeral, digits_value};

// The number that one to five decimal digits stand for, up to 65535. Zeros may stand in front. Not by `parse`, which takes a sign and any
// number of zeros.
pub fn decimal(digits: &[u8]) -> Option<usize>
    ensures value { SomeIff result
        (IsNumeral 10 digits.now × (length digits.now ≤ 5) × (digits_value 10 digits.now ≤ 65535))
        (digits_value 10 digits.now) }
    ensures bound { IfSome result (λ value. value ≤ 65535) }
{
    if digits.is_empty() || 5 < digits.len() {
        return None;
    }
    let mut value = 0u16;
    for digit in digits {
        let ones = char::from(*digit).to_digit(10)? as u16;
        value = value.checked_mul(10)?.checked_add(ones)?;
    }
    Some(usize::from(value))
}
