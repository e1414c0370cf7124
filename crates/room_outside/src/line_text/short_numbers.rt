//! The digits of numbers that have few.
ghost use Rattle.std.specs.Prelude.{◌≡◌, ◌+◌, ◌/◌, ◌%◌, ◌<◌, ◌≤◌, [], ◌∷◌, decimal};

/// The two digits of each number below 100, one number after the other.
static PAIRS: [u8; 200] =
    *b"0001020304050607080910111213141516171819202122232425262728293031323334353637383940414243444546474849\
5051525354555657585960616263646566676869707172737475767778798081828384858687888990919293949596979899";

#[inline(always)]
fn digit(number: u32) -> u8
    requires { number < 10 }
    ensures { result ≡ 48 + number }
{
    b'0' + number as u8
}

#[inline(always)]
#[tactic(auto, using(crate::proofs::line_text::Digits::PAIRS_at))]
fn pair(number: u32) -> [u8; 2]
    requires { number < 100 }
    ensures { result ≡ (48 + number / 10) ∷ (48 + number % 10) ∷ [] }
{
    let from = number as usize * 2;
    [PAIRS[from], PAIRS[from + 1]]
}

#[inline(always)]
#[tactic(auto, using(crate::proofs::line_text::Digits::two_digits))]
pub(crate) fn two_digits(number: u32) -> [u8; 2]
    requires low { 10 ≤ number }
    requires high { number < 100 }
    ensures { result ≡ decimal number }
{
    pair(number)
}

#[inline(always)]
#[tactic(auto, using(crate::proofs::line_text::Digits::three_digits))]
pub(crate) fn three_digits(number: u32) -> [u8; 3]
    requires low { 100 ≤ number }
    requires high { number < 1000 }
    ensures { result ≡ decimal number }
{
    let [tens, ones] = pair(number % 100);
    [digit(number / 100), tens, ones]
}

#[inline(always)]
#[tactic(auto, using(crate::proofs::line_text::Digits::four_digits))]
pub(crate) fn four_digits(number: u32) -> [u8; 4]
    requires low { 1000 ≤ number }
    requires high { number < 10000 }
    ensures { result ≡ decimal number }
{
    let [thousands, hundreds] = pair(number / 100);
    let [tens, ones] = pair(number % 100);
    [thousands, hundreds, tens, ones]
}

#[inline(always)]
#[tactic(auto, using(crate::proofs::line_text::Digits::five_digits))]
pub(crate) fn five_digits(number: u32) -> [u8; 5]
    requires low { 10000 ≤ number }
    requires high { number < 100000 }
    ensures { result ≡ decimal number }
{
    let front = number / 100;
    let [thousands, hundreds] = pair(front % 100);
    let [tens, ones] = pair(number % 100);
    [digit(front / 100), thousands, hundreds, tens, ones]
}
