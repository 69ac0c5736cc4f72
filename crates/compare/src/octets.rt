// Whether two parts have the same octets.
ghost use Rattle.compare.specs.steps.Lists.{Tells};

// Whether two slices have the same octets. All are looked at, without a way out at the first that differs, so that many are compared at once.
// `==` of slices calls `memcmp`, which the archive may not.
pub(crate) fn equal(one: &[u8], two: &[u8]) -> bool
    ensures { Tells result one.now two.now }
{
    if one.len() != two.len() {
        return false;
    }
    let mut differs = false;
    for (a, b) in one.iter().zip(two) {
        differs |= a != b;
    }
    !differs
}
