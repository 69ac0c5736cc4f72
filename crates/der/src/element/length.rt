// The decoder of length octets (X.690 8.1.3, 10.1), whatever the identifier before them is. It reads forms of one, two and three octets: a
// longer form that is the shortest gives 65,536 or more, and no input is that long.
ghost use Rattle.std.specs.Prelude.{◌≡◌, ◌≤◌, ◌<◌};
ghost use Rattle.der.specs.steps.Span.{fitted, span_of, found_span};

// How many identifier and length octets an element has, and how many octets of content.
#[derive(Clone, Copy)]
pub struct Span {
    pub octets: usize,
    pub length: usize,
}

// Measures the element at the start of bytes that end with its parent, by its length octets alone: the identifier is not judged.
pub fn measure(bytes: &[u8]) -> Option<Span>
    ensures { result ≡ found_span (span_of bytes.now) }
{
    if bytes.len() < 2 {
        return None;
    }
    let first = bytes[1] as usize;
    // X.690 8.1.3: the short form.
    if first < 0x80 {
        return fit(bytes.len(), 2, first);
    }
    if bytes.len() < 4 {
        return None;
    }
    // X.690 8.1.3 and 10.1: the long form, which is the shortest.
    let top = bytes[2] as usize;
    if (first == 0x81) & (0x80 <= top) {
        return fit(bytes.len(), 3, top);
    }
    if (first == 0x82) & (top != 0) {
        return fit(bytes.len(), 4, top * 256 + bytes[3] as usize);
    }
    None
}

// The span, if the content ends within the room.
fn fit(room: usize, octets: usize, length: usize) -> Option<Span>
    requires { (0 < octets) × (octets ≤ room) }
    ensures { result ≡ found_span (fitted room octets length) }
{
    if room - octets < length {
        return None;
    }
    Some(Span { octets, length })
}
