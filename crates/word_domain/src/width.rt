// A number of bits, and the words of so many bits.

ghost use Rattle.std.specs.Prelude.{ℕ, ◌≡◌, ◌+◌, ◌-◌, ◌*◌, ◌%◌, ◌^◌, ◌<◌, ◌≤◌, ◌↔◌, IsTrue, IfSome, if◌then◌else◌, Some};
ghost use Rattle.word_domain.specs.Words.{is_width, IsQuotient};

use std::marker::Model;

/// The most bits of a word; the least is one.
pub const WIDEST: u32 = 32;

/// A number of bits from 1 to [`WIDEST`]. The words of a width are the numbers below two to its power.
#[derive(Clone, Copy, PartialEq, Eq, Debug)]
pub struct Width {
    bits: u32,
}

impl Model for Width {
    ghost use Rattle.std.specs.Prelude.{ℕ, ◌≤◌};
    ghost use Rattle.word_domain.specs.declared.width.TheConstants.{WIDEST};

    ghost Value = { ℕ };

    ghost view = { λ w. w.bits };

    ghost invariant = { λ w. (1 ≤ w.bits) × (w.bits ≤ WIDEST) };

    ghost inverse = { λ n. record { bits = n } };
}

impl Width {
    /// The width of so many bits, if there is one.
    pub fn new(bits: u32) -> Option<Width>
        ensures { result ≡ (if is_width bits then Some bits else None) }
    {
        if 1 <= bits && bits <= WIDEST {
            Some(Width { bits })
        } else {
            None
        }
    }

    /// The number of bits, 1 to [`WIDEST`].
    pub fn bits(self) -> u32
        ensures value { result ≡ self }
        ensures low { 1 ≤ self }
        ensures high { self ≤ WIDEST }
    {
        self.bits
    }

    /// The greatest word, all of whose bits are set.
    pub fn mask(self) -> u64
        ensures value { result ≡ 2 ^ self - 1 }
        ensures low { 2 ≤ 2 ^ self }
        ensures high { 2 ^ self ≤ 2 ^ WIDEST }
    {
        (1 << self.bits) - 1
    }

    /// Whether a number is a word of this width.
    pub fn fits(self, value: u64) -> bool
        ensures { IsTrue result ↔ (value < 2 ^ self) }
    {
        value <= self.mask()
    }

    /// The word of this width with the other bits set.
    pub fn complement(self, value: u64) -> u64
        requires { value < 2 ^ self }
        ensures value { result ≡ 2 ^ self - 1 - value }
        ensures fits { result < 2 ^ self }
    {
        self.mask() - value
    }

    /// The sum of two words of this width, without its carry.
    pub fn sum_mod(self, a: u64, b: u64) -> u64
        requires a_fits { a < 2 ^ self }
        requires b_fits { b < 2 ^ self }
        ensures value { result ≡ (a + b) % 2 ^ self }
        ensures fits { result < 2 ^ self }
    {
        (a + b) & self.mask()
    }

    /// What is to be added to `b` for the sum, without its carry, to be `a`.
    pub fn difference_mod(self, a: u64, b: u64) -> u64
        requires a_fits { a < 2 ^ self }
        requires b_fits { b < 2 ^ self }
        ensures value { result ≡ (a + (2 ^ self - b)) % 2 ^ self }
        ensures fits { result < 2 ^ self }
        ensures sum { (b + result) % 2 ^ self ≡ a }
    {
        (a + (self.mask() + 1 - b)) & self.mask()
    }

    /// The word of this width that `a` is to be multiplied by for the product to be `z`.
    pub fn quotient(self, z: u64, a: u64) -> Option<u64>
        requires { 0 < a }
        ensures found { IfSome result (IsQuotient self z a) }
        ensures where_there_is_one { (q : ℕ) → IsQuotient self z a q → result ≡ Some q }
    {
        let quotient = z / a;
        if quotient * a == z && self.fits(quotient) {
            Some(quotient)
        } else {
            None
        }
    }
}
