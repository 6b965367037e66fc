ghost use Rattle.std.specs.Prelude.{◌≡◌, ◌≤◌, ◌^◌};
ghost use Rattle.gw_nums.specs.Ratio.{thousandths_of};

/// The quotient of two numbers in thousandths, cut off towards zero; 0 where the divisor is 0.
pub fn thousandths(a: u128, b: u128) -> u128
    requires { a ≤ 10 ^ 35 }
    ensures { result ≡ thousandths_of a b }
{
    if b == 0 { 0 } else { a * 1000 / b }
}
