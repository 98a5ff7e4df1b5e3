//! Where numbers stand in lists of numbers, and where vectors agree.

ghost use Rattle.std.specs.Prelude.{◌≡◌, ◌≤◌, length, true};
ghost use Rattle.std.specs.List.{list_any, range_with_len};
ghost use Rattle.std.proofs.Math.Dec.{eqb};
ghost use Rattle.beta_tree.specs.Edits as edit;
ghost use Rattle.beta_tree.specs.Edits.{same_vector};
ghost use Rattle.beta_trails.specs.Trails as trail;
ghost use Rattle.chlore_recover.specs.Triangles as triangle;
ghost use Rattle.chlore_recover.specs.Strategy as strategy;

/// The place of a number in a list, its length where it isn't there.
pub fn place_of(number: usize, list: &[usize]) -> usize
    ensures answer { result ≡ edit.place_of number list.now }
    ensures within { result ≤ length list.now }
{
    for k in 0..list.len() {
        if list[k] == number {
            return k;
        }
    }
    list.len()
}

/// The place of a number in a list of numbers that differ, its length where it isn't there. Mostly it is its own place, which is
/// looked at first.
pub fn own_place_of(number: usize, list: &[usize]) -> usize
    requires { triangle.differ list.now ≡ true }
    ensures { result ≡ edit.place_of number list.now }
{
    if number < list.len() && list[number] == number {
        return number;
    }
    place_of(number, list)
}

/// Whether the numbers are 0, 1 and so on.
pub fn is_in_order(numbers: &[usize]) -> bool
    ensures { result ≡ same_vector numbers.now (range_with_len 0 (length numbers.now)) }
{
    for k in 0..numbers.len() {
        if numbers[k] != k {
            return false;
        }
    }
    true
}

// Whether a number is in a list.
fn has(number: usize, list: &[usize]) -> bool
    ensures { result ≡ list_any (eqb number) list.now }
{
    for other in list {
        if number == *other {
            return true;
        }
    }
    false
}

/// Whether no two of the numbers are the same.
pub fn differ(list: &[usize]) -> bool
    ensures { result ≡ triangle.differ list.now }
{
    if is_in_order(list) {
        return true;
    }
    for k in 0..list.len() {
        if has(list[k], &list[k + 1..]) {
            return false;
        }
    }
    true
}

/// In how many first entries two vectors agree.
pub fn agreement(u: &[u32], v: &[u32]) -> usize
    ensures answer { result ≡ trail.agreement u.now v.now }
    ensures first { result ≤ length u.now }
    ensures second { result ≤ length v.now }
{
    for k in 0..u.len() {
        if k >= v.len() {
            return k;
        }
        if u[k] != v[k] {
            return k;
        }
    }
    u.len()
}

/// Whether the first vector is before the second one in lexicographic order.
pub fn is_before(u: &[u32], v: &[u32]) -> bool
    ensures { result ≡ strategy.is_before u.now v.now }
{
    for k in 0..u.len() {
        if k >= v.len() {
            return false;
        }
        if u[k] != v[k] {
            return u[k] < v[k];
        }
    }
    true
}
