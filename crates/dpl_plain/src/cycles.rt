// The cycles of a permutation, from which the numbers are taken out, the greatest first.
ghost use Rattle.std.specs.Prelude.{◌≡◌, ℕ, ◌/◌, ◌<◌, ◌≤◌, ◌==◌, ◌^◌, length, slice_index, EachIndex, if◌then◌else◌};
ghost use Rattle.dpl_cycle.specs.Cycles.{without, least as least_on};
ghost use Rattle.dpl_cycle.specs.Among.{cycles_among, members};
ghost use Rattle.dpl_sign.specs.Drawings.{is_in as in_set};

use crate::replace::replace;
use dpl_sign::is_in;

/// Takes a number out of its cycle: what led to it leads where it led.
fn take_out(nexts: &mut [u32], number: u32)
    requires { number < length nexts.old }
    ensures { EachIndex nexts.new (λ x. slice_index nexts.new x
        ≡ without number (slice_index nexts.old) x) }
{
    let after = nexts[number as usize];
    replace(nexts, number, after);
}

/// Takes a number out of its cycle, and says whether it was the last one there.
fn take_last(nexts: &mut [u32], number: u32) -> bool
    requires { number < length nexts.old }
    ensures alone { result ≡ (slice_index nexts.old number == number) }
    ensures without { EachIndex nexts.new (λ x.
        slice_index nexts.new x ≡ without number (slice_index nexts.old) x) }
{
    let alone = nexts[number as usize] == number;
    take_out(nexts, number);
    alone
}

/// How many cycles go through the darts of a set of edges. The numbers are taken out of their cycles.
pub fn count_cycles(nexts: &mut [u32], set: &[bool]) -> u32
    requires { length nexts.old < 2 ^ 31 }
    ensures value { result ≡ cycles_among (slice_index nexts.old) (members (λ d.
        in_set set.now (d / 2)) (length nexts.old)) }
    ensures range { result ≤ length nexts.old }
{
    let mut count = 0;
    for dart in (0..nexts.len() as u32).rev() {
        if is_in(set, dart / 2) && take_last(nexts, dart) {
            count += 1;
        }
    }
    count
}

/// Takes the greatest number out of its cycle, and goes on where one stood on it.
fn step_down(nexts: &mut [u32], top: u32, here: u32) -> u32
    requires { top < length nexts.old }
    ensures place { result ≡ (if here == top then slice_index nexts.old top else here) }
    ensures without { EachIndex nexts.new (λ x.
        slice_index nexts.new x ≡ without top (slice_index nexts.old) x) }
{
    let after = nexts[top as usize];
    take_out(nexts, top);
    if here == top { after } else { here }
}

/// The least number of the cycle of a number. The numbers are taken out of their cycles.
pub fn least(nexts: &mut [u32], number: u32) -> u32
    requires { length nexts.old < 2 ^ 31 }
    ensures { result ≡ least_on (slice_index nexts.old) (length nexts.old) number }
{
    let mut here = number;
    for top in (0..nexts.len() as u32).rev() {
        let alone = nexts[top as usize] == top;
        if (here == top) & alone {
            return top;
        }
        here = step_down(nexts, top, here);
    }
    here
}
