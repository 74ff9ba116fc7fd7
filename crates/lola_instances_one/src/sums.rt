//! Sums of parts of a list of numbers or bits, and the part of it in which a number of units ends.

ghost use Rattle.std.specs.Prelude.{◌≡◌, ◌+◌, ◌*◌, ◌^◌, ◌≤◌, ◌<◌, length, take, sum, sum_by, slice_index_or, true, false, OnOk};
ghost use Rattle.lola_instances_one.specs.Bits.{bit, IsSameOrLonger};

use lola_value::text::Memory;

/// The sum of the numbers from a place up to another.
pub fn sum_between(numbers: &[usize], from: usize, to: usize) -> usize
    requires order { from ≤ to }
    requires within { to ≤ length numbers.now }
    requires fits { sum (take to numbers.now) < 2 ^ 64 }
    ensures { result + sum (take from numbers.now) ≡ sum (take to numbers.now) }
{
    let mut total = 0;
    for i in from..to {
        total += numbers[i];
    }
    total
}

/// How many bits are set from a place up to another.
pub fn count_between(bits: &[bool], from: usize, to: usize) -> usize
    requires order { from ≤ to }
    requires within { to ≤ length bits.now }
    requires fits { sum_by bit (take to bits.now) < 2 ^ 64 }
    ensures { result + sum_by bit (take from bits.now) ≡ sum_by bit (take to bits.now) }
{
    let mut total = 0;
    for i in from..to {
        if bits[i] {
            total += 1;
        }
    }
    total
}

/// Where so many units behind a place are passed: the place of the number that passes them, and how many of its units are before.
pub fn place_past(numbers: &[usize], from: usize, units: usize) -> (usize, usize)
    requires from { from ≤ length numbers.now }
    requires enough { sum (take from numbers.now) + units < sum numbers.now }
    ensures from { from ≤ result.0 }
    ensures within { result.0 < length numbers.now }
    ensures before { sum (take result.0 numbers.now) + result.1 ≡ sum (take from numbers.now) + units }
    ensures rest { result.1 < slice_index_or numbers.now result.0 0 }
{
    let mut rest = units;
    for i in from..numbers.len() {
        let number = numbers[i];
        if rest < number {
            return (i, rest);
        }
        rest -= number;
    }
    unreachable!()
}

/// The place of the set bit that has so many set ones between a place and itself.
pub fn bit_past(bits: &[bool], from: usize, units: usize) -> usize
    requires from { from ≤ length bits.now }
    requires enough { sum_by bit (take from bits.now) + units < sum_by bit bits.now }
    ensures within { result < length bits.now }
    ensures before { sum_by bit (take result bits.now) ≡ sum_by bit (take from bits.now) + units }
    ensures set { slice_index_or bits.now result false ≡ true }
{
    let mut rest = units;
    for i in from..bits.len() {
        if bits[i] {
            if rest == 0 {
                return i;
            }
            rest -= 1;
        }
    }
    unreachable!()
}

/// One more sum of nothing, where the sums cover no more than so many places, 64 each.
pub fn cover(sums: &mut Vec<usize>, places: usize) -> Result<(), Memory>
    requires { places ≤ 64 * length sums.old.items }
    ensures longer { IsSameOrLonger sums.old.items sums.new.items }
    ensures ok { OnOk result (places < 64 * length sums.new.items) }
{
    if places / 64 < sums.len() {
        return Ok(());
    }
    match sums.push(0) {
        Ok(()) => Ok(()),
        Err(_) => Err(Memory),
    }
}
