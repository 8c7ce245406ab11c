// Checksums of results, and fillings of bytes.
use event_store::EVENT_WORDS;

// The checksum with one result more, modulo 2^64: turned by one bit, and the result added.
pub fn fold(sum: u64, x: u64) -> u64 {
    sum.rotate_left(1).wrapping_add(x)
}

// The byte at an index, 0 past the end.
pub fn byte_at(s: &[u8], i: usize) -> u64 {
    if i < s.len() { u64::from(s[i]) } else { 0 }
}

// Fills with bytes that all differ from their neighbours.
pub fn fill(s: &mut [u8], first: u8) {
    let mut b = first;
    for x in s {
        *x = b;
        b = b.wrapping_add(37);
    }
}

// The times and points of all slots.
pub fn digest(sum: u64, held: &[u64; EVENT_WORDS]) -> u64 {
    let mut all = sum;
    for i in 0..events::CAPACITY {
        let e = event_store::load(held, i).event;
        all = fold(fold(all, e.time), u64::from(e.point));
    }
    all
}

// The checksum with every byte.
pub fn fold_all(sum: u64, s: &[u8]) -> u64 {
    s.iter().fold(sum, |all, &b| fold(all, u64::from(b)))
}
