// Writers of bytes into a lent buffer. Where there is no room they write nothing, so none of them asks anything of its caller.

// Bytes from `at` on: the index after those written.
pub fn bytes(s: &mut [u8], at: usize, values: &[u8]) -> usize {
    let mut next = at;
    for x in values {
        if let Some(place) = s.get_mut(next) {
            *place = *x;
            next += 1;
        }
    }
    next
}

// n bytes of 0.
pub fn zeros(s: &mut [u8], at: usize, n: usize) {
    for place in s.iter_mut().skip(at).take(n) {
        *place = 0;
    }
}

// n bytes: 1, 2, and so on, 0 after 255.
pub fn counted(s: &mut [u8], at: usize, n: usize) {
    let mut x: u8 = 0;
    for place in s.iter_mut().skip(at).take(n) {
        x = x.wrapping_add(1);
        *place = x;
    }
}

// n fluents of size 1.
pub fn fluents(s: &mut [u8], at: usize, n: u16) {
    let mut next = at;
    for _ in 0..n {
        next = bytes(s, next, &[1, 0]);
    }
}

// A copy of the bytes from `from` on, below `end`, to a place that is not above them.
pub fn copy(s: &mut [u8], at: usize, from: usize, end: usize) {
    let last = end.min(s.len());
    if at <= from && from <= last {
        s.copy_within(from..last, at);
    }
}
