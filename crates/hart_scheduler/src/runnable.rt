// Which harts are runnable, by a slice with one entry for each hart.
ghost use Rattle.std.specs.Prelude.{◌≡◌, ◌≤◌, ◌<◌, ◌+◌, ◌-◌, ◌||◌, ◌++◌, length, slice_get};
ghost use Rattle.std.specs.List.{find, range_with_len};
ghost use Rattle.hart_scheduler.specs.Choices.{is_runnable, runnable_harts};

use base::Hart;

pub(crate) fn is_runnable(runnable: &[bool], hart: Hart) -> bool
    ensures { result ≡ is_runnable runnable.now hart }
{
    let place = usize::from(hart.number());
    if place < runnable.len() {
        runnable[place]
    } else {
        false
    }
}

#[inline(always)]
pub(crate) fn hart_at(number: usize) -> Hart
    requires { number < 256 }
    ensures { result ≡ number }
{
    Hart::of_byte(number as u8)
}

// Whether one of four harts from a number on is runnable.
#[inline(always)]
fn is_any_of_four(runnable: &[bool], from: usize) -> bool
    requires small { from ≤ 252 }
    requires inside { from + 4 ≤ length runnable.now }
    ensures { result ≡ (is_runnable runnable.now from || is_runnable runnable.now (from + 1)
        || is_runnable runnable.now (from + 2) || is_runnable runnable.now (from + 3)) }
{
    runnable[from] | runnable[from + 1] | runnable[from + 2] | runnable[from + 3]
}

// Goes by fours to where one of the next four harts is runnable, or fewer are left.
fn past_idle(runnable: &[bool], from: usize, end: usize) -> usize
    requires ordered { from ≤ end }
    requires bound { end ≤ 256 }
    requires inside { end ≤ length runnable.now }
    ensures ordered { result ≤ end }
    ensures same { find (is_runnable runnable.now) (range_with_len from (end - from))
        ≡ find (is_runnable runnable.now) (range_with_len result (end - result)) }
{
    let mut start = from;
    while end - start >= 4 && !is_any_of_four(runnable, start) {
        start += 4;
    }
    start
}

// The lowest runnable hart of those from `from` on and below `end`.
pub(crate) fn lowest_runnable(runnable: &[bool], from: usize, end: usize) -> Option<Hart>
    requires ordered { from ≤ end }
    requires bound { end ≤ 256 }
    requires inside { end ≤ length runnable.now }
    ensures { result ≡ find (is_runnable runnable.now) (range_with_len from (end - from)) }
{
    for number in past_idle(runnable, from, end)..end {
        if runnable[number] {
            return Some(hart_at(number));
        }
    }
    None
}

// The first runnable hart from a number on, and then from the lowest on.
#[inline(never)]
pub(crate) fn first_from(runnable: &[bool], from: usize, harts: usize) -> Option<Hart>
    requires bound { harts ≤ 256 }
    requires inside { harts ≤ length runnable.now }
    requires from { from ≤ harts }
    ensures { result ≡ find (is_runnable runnable.now)
        (range_with_len from (harts - from) ++ range_with_len 0 from) }
{
    match lowest_runnable(runnable, from, harts) {
        Some(after) => Some(after),
        None => lowest_runnable(runnable, 0, from),
    }
}

// How many harts below `end` are runnable.
pub(crate) fn count_runnable(runnable: &[bool], end: u16) -> u16
    requires { end ≤ length runnable.now }
    ensures { result ≡ length (runnable_harts runnable.now end) }
{
    let mut count = 0;
    for number in 0..end {
        if runnable[usize::from(number)] {
            count += 1;
        }
    }
    count
}

// The runnable hart below `end` below which so many are runnable.
pub(crate) fn runnable_at(runnable: &[bool], end: u16, place: u16) -> Option<Hart>
    requires bound { end ≤ 256 }
    requires inside { end ≤ length runnable.now }
    ensures { result ≡ slice_get (runnable_harts runnable.now end) place }
{
    let mut left = place;
    for number in 0..end {
        if runnable[usize::from(number)] {
            if left == 0 {
                return Some(hart_at(usize::from(number)));
            }
            left -= 1;
        }
    }
    None
}
