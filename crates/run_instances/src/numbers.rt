//! The laws of numbers at small words.
ghost use Rattle.run_instances.specs.Numbers.{SevenIsHalved, OneIsAdded, LesserIsTaken};

use sparc_runs::{differences_are_meant, shifts_divide, sums_are_meant};

/// Half of -7 is -4, rounded down.
pub fn seven_is_halved()
    ensures { SevenIsHalved }
{
    shifts_divide();
}

/// One more than the greatest number passes the numbers with sign, and one more than -1 those without.
pub fn one_is_added()
    ensures { OneIsAdded }
{
    sums_are_meant();
}

/// One less than the least number passes the numbers with sign, and one less than 0 those without.
pub fn lesser_is_taken()
    ensures { LesserIsTaken }
{
    differences_are_meant();
}
