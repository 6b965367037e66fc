//! Whole numbers of the product: values, times of the clock, and their digits.
//!
//! A [`Val`] lies in -1,000,000,000 to 1,000,000,000, a [`Time`] in 0 to 1,001,000,000,000 and a [`Clock`] in 0 to
//! 1,000,000,000,000, by their types; [`Millionths`] are a number with six decimals. A number is written as its decimal
//! digits and nothing else.
//!
//! Sums, differences, products, quotients and remainders are exact, or the answer is `Range` or `ZeroDivisor`. A
//! quotient in [`thousandths`] and a [`whole_root`] are cut off, and a quotient of [`Millionths`] is rounded down.
//!
//! Contracts: `add`, `sub`, `mul`, `div`, `rem`, `times`, `Val::new`, `Clock::at`, `Clock::after`, `put_decimal`,
//! `thousandths`, `whole_root`, the calls of `Millionths`.
#![tactic(auto)]

mod decimal;
mod millionths;
mod ratio;
mod root;
mod time;
mod val;

pub use decimal::put_decimal;
pub use millionths::{Millionths, times};
pub use ratio::thousandths;
pub use root::whole_root;
pub use time::{Clock, LAST_CLOCK, LAST_TIME, Time};
pub use val::{ArithmeticFault, GREATEST, Val, add, div, mul, rem, sub};
