ghost use Rattle.std.specs.Prelude.{◌≡◌, pos, ◌+ℤ◌, ◌-ℤ◌, ◌*ℤ◌, MatchOption, FitsSigned};
ghost use Rattle.std.specs.Int.{w64, int_min, int_max, int_div_euclid};
ghost use Rattle.kid_value.specs.PlainSort.{ints};
ghost use Rattle.kid_term.specs.Sorted.{allowed};
ghost use Rattle.kid_term.specs.NumberSorts.{greatest_size, least_of_four, greatest_of_four, product_sort, quotient_sort, rest_sort};
ghost use Rattle.kid_sorting.specs.Answers.{SortGives};

use crate::allow::between;
use crate::fault::SortFault;
use kid_value::Sort;

/// The greatest integer of a sort.
const MAX_SIZE: u64 = 4611686018427387904;

/// The integers from `lo` to `hi`.
#[derive(Clone, Copy)]
pub struct Interval {
    pub lo: i64,
    pub hi: i64,
}

impl Interval {
    /// The sort of the sums of a number of each.
    pub fn sum(&self, other: &Interval) -> Result<Sort, SortFault>
        ensures { SortGives result (allowed (ints (self.now.lo +ℤ other.now.lo) (self.now.hi +ℤ other.now.hi))) }
    {
        let Some(lo) = self.lo.checked_add(other.lo) else {
            return Err(SortFault::Bounds);
        };
        let Some(hi) = self.hi.checked_add(other.hi) else {
            return Err(SortFault::Bounds);
        };
        between(lo, hi)
    }

    /// The sort of the differences between a number of the first and one of the second.
    pub fn difference(&self, other: &Interval) -> Result<Sort, SortFault>
        ensures { SortGives result (allowed (ints (self.now.lo -ℤ other.now.hi) (self.now.hi -ℤ other.now.lo))) }
    {
        let Some(lo) = self.lo.checked_sub(other.hi) else {
            return Err(SortFault::Bounds);
        };
        let Some(hi) = self.hi.checked_sub(other.lo) else {
            return Err(SortFault::Bounds);
        };
        between(lo, hi)
    }

    /// The sort of the opposites.
    pub fn opposite(&self) -> Result<Sort, SortFault>
        ensures { SortGives result (allowed (ints (pos 0 -ℤ self.now.hi) (pos 0 -ℤ self.now.lo))) }
    {
        Interval { lo: 0, hi: 0 }.difference(self)
    }

    /// The sort of the products of a number of each.
    pub fn product(&self, other: &Interval) -> Result<Sort, SortFault>
        ensures { SortGives result (allowed (product_sort self.now.lo self.now.hi other.now.lo other.now.hi)) }
    {
        let Some(from_low) = other.multiplied(self.lo) else {
            return Err(SortFault::Bounds);
        };
        let Some(from_high) = other.multiplied(self.hi) else {
            return Err(SortFault::Bounds);
        };
        hull(&from_low, &from_high)
    }

    /// Both ends times a factor, or `None` where one does not fit.
    fn multiplied(&self, factor: i64) -> Option<Interval>
        ensures { MatchOption result (¬ (FitsSigned w64 (factor *ℤ self.now.lo) × FitsSigned w64 (factor *ℤ self.now.hi))) (λ r. (r.lo ≡ factor *ℤ self.now.lo) × (r.hi ≡ factor *ℤ self.now.hi)) }
    {
        let lo = factor.checked_mul(self.lo)?;
        let hi = factor.checked_mul(self.hi)?;
        Some(Interval { lo, hi })
    }

    /// The sort of the sums of at most `count` numbers.
    pub fn total(&self, count: u32) -> Result<Sort, SortFault>
        ensures { SortGives result (allowed (ints (pos count *ℤ int_min (pos 0) self.now.lo) (pos count *ℤ int_max (pos 0) self.now.hi))) }
    {
        let with_zero = Interval {
            lo: 0i64.min(self.lo),
            hi: 0i64.max(self.hi),
        };
        match with_zero.multiplied(i64::from(count)) {
            Some(ends) => between(ends.lo, ends.hi),
            None => Err(SortFault::Bounds),
        }
    }

    /// The sort of the quotients of a number by one of the divisor's.
    pub fn quotient(&self, divisor: &Interval) -> Result<Sort, SortFault>
        ensures { SortGives result (allowed (quotient_sort self.now.lo self.now.hi divisor.now.lo divisor.now.hi)) }
    {
        if 1 <= divisor.lo {
            self.floors(divisor)
        } else {
            self.up_to_size()
        }
    }

    /// The sort from the lesser floor of the lower end to the greater floor of the higher end.
    fn floors(&self, divisor: &Interval) -> Result<Sort, SortFault>
        ensures { SortGives result (allowed (ints (int_min (int_div_euclid self.now.lo divisor.now.lo) (int_div_euclid self.now.lo divisor.now.hi)) (int_max (int_div_euclid self.now.hi divisor.now.lo) (int_div_euclid self.now.hi divisor.now.hi)))) }
    {
        between(
            floor(self.lo, divisor.lo).min(floor(self.lo, divisor.hi)),
            floor(self.hi, divisor.lo).max(floor(self.hi, divisor.hi)),
        )
    }

    /// The sort from the opposite of the greatest size of the ends to that size.
    fn up_to_size(&self) -> Result<Sort, SortFault>
        ensures { SortGives result (allowed (ints (pos 0 -ℤ pos (greatest_size self.now.lo self.now.hi)) (pos (greatest_size self.now.lo self.now.hi)))) }
    {
        let size = self.size();
        if size > MAX_SIZE {
            return Err(SortFault::Bounds);
        }
        let size = size as i64;
        between(-size, size)
    }

    /// The sort of the rests after a division by a number.
    pub fn rest(&self) -> Result<Sort, SortFault>
        ensures { SortGives result (allowed (rest_sort self.now.lo self.now.hi)) }
    {
        let most = self.size().saturating_sub(1);
        if most > MAX_SIZE {
            return Err(SortFault::Bounds);
        }
        between(0, most as i64)
    }

    /// The greatest size of an end.
    fn size(&self) -> u64
        ensures { result ≡ greatest_size self.now.lo self.now.hi }
    {
        self.lo.unsigned_abs().max(self.hi.unsigned_abs())
    }

    /// The sort of the lesser of a number of each.
    pub fn lesser(&self, other: &Interval) -> Result<Sort, SortFault>
        ensures { SortGives result (allowed (ints (int_min self.now.lo other.now.lo) (int_min self.now.hi other.now.hi))) }
    {
        between(self.lo.min(other.lo), self.hi.min(other.hi))
    }

    /// The sort of the greater of a number of each.
    pub fn greater(&self, other: &Interval) -> Result<Sort, SortFault>
        ensures { SortGives result (allowed (ints (int_max self.now.lo other.now.lo) (int_max self.now.hi other.now.hi))) }
    {
        between(self.lo.max(other.lo), self.hi.max(other.hi))
    }
}

/// The quotient that leaves a rest from 0 on, or the greatest i64 where it is greater. A divisor's
/// ends stand in order in each allowed sort; where they do not, an end from 0 down is met too.
fn floor(n: i64, divisor: i64) -> i64
    ensures { result ≡ int_min (int_div_euclid n divisor) (pos 9223372036854775807) }
{
    if divisor == 0 {
        return if n < 0 { -1 } else { 0 };
    }
    n.checked_div_euclid(divisor).unwrap_or(i64::MAX)
}

/// The sort of the integers between the least and the greatest of four ends.
fn hull(first: &Interval, second: &Interval) -> Result<Sort, SortFault>
    ensures { SortGives result (allowed (ints (least_of_four first.now.lo first.now.hi second.now.lo second.now.hi) (greatest_of_four first.now.lo first.now.hi second.now.lo second.now.hi))) }
{
    between(
        first.lo.min(first.hi).min(second.lo.min(second.hi)),
        first.lo.max(first.hi).max(second.lo.max(second.hi)),
    )
}
