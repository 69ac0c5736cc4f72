// The part of an input between two places.
ghost use Rattle.std.specs.Prelude.{◌≡◌};
ghost use Rattle.std.proofs.Math.Seq.{slice};

// The bytes from `at` to `end`, as far as the input has them.
pub(crate) fn between(bytes: &[u8], at: usize, end: usize) -> &[u8]
    ensures { result.now ≡ slice at end bytes.now }
{
    let stop = end.min(bytes.len());
    if at <= stop {
        &bytes[at..stop]
    } else {
        &bytes[..0]
    }
}
