//! The tasks of a measured case, by number.
ghost use Rattle.std.specs.Prelude.{◌≡◌};
ghost use Rattle.ptg_measure.specs.Tasks.{task_of};

use ptg_base::TaskId;

/// The task of this number, one of four classes, with three parameters.
pub fn task(number: u32) -> TaskId
    ensures { result ≡ task_of number }
{
    TaskId::new(
        number % 4,
        &[
            i64::from(number % 1000),
            i64::from(number / 1000),
            i64::from(number),
        ],
    )
}

/// The priority of this task, one of 1,000. Tasks whose numbers follow one another have priorities far apart.
pub fn priority(number: u32) -> i64 {
    i64::from(number.wrapping_mul(0x9E37_79B1) >> 8) % 1000
}
