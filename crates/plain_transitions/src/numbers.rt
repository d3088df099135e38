//! Ascending numbers.

ghost use Rattle.std.specs.Prelude.{◌≡◌, ◌≤◌, length};
ghost use Rattle.plain_transitions.specs.inside.KeyedNumbers.{Ascend, IsCountUpTo, IsLeastAbove};
ghost use Rattle.plain_transitions.specs.inside.KeyedNumbers.{smaller};

// How many of ascending numbers are not above another one.
fn count_up_to(numbers: &[u32], after: u32) -> usize
    requires { Ascend numbers.now }
    ensures count { IsCountUpTo numbers.now after result }
    ensures within { result ≤ length numbers.now }
{
    let mut low = 0;
    let mut high = numbers.len();
    while low < high {
        let middle = low + (high - low) / 2;
        if numbers[middle] <= after {
            low = middle + 1;
        } else {
            high = middle;
        }
    }
    low
}

/// The least of ascending numbers that is above another one.
pub(crate) fn least_above(numbers: &[u32], after: u32) -> Option<u32>
    requires { Ascend numbers.now }
    ensures { IsLeastAbove numbers.now after result }
{
    let count = count_up_to(numbers, after);
    if count < numbers.len() {
        Some(numbers[count])
    } else {
        None
    }
}

/// The smaller of two numbers, as far as they are there.
pub(crate) fn smaller(one: Option<u32>, other: Option<u32>) -> Option<u32>
    ensures { result ≡ smaller one other }
{
    let Some(number) = one else {
        return other;
    };
    let Some(more) = other else {
        return one;
    };
    if more < number {
        Some(more)
    } else {
        Some(number)
    }
}
