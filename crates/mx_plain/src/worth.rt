//! Present values, summed month by month.
ghost use Rattle.mx_plain.specs.Base.{IsWorth};

use crate::base::Month;
use crate::number::{Number, plus, times};

/// What was paid before a month and in it, discounted to month 0.
pub fn with_worth(before: &Number, paid: &Number, month: &Month) -> Number
    ensures { IsWorth before.now paid.now month.now result }
{
    plus(before, &times(paid, &month.opening.disc_factor))
}
