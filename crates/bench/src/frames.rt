// Frames of 250 user bytes, 292 bytes in all.
use crate::sums::{byte_at, fill, fold};
use frame::{FRAME_MAX, USER_MAX};

pub fn frame_write(count: u64) -> u64 {
    let mut out = [0u8; FRAME_MAX];
    let mut user = [0u8; USER_MAX];
    fill(&mut user, 1);
    let mut sum: u64 = 1;
    for _ in 0..count {
        let k = (sum % USER_MAX as u64) as usize;
        user[k] = (sum % 256) as u8;
        if let Ok(n) = frame::write_frame(&mut out, 68, 1, 10, &user) {
            sum = fold(sum, (n as u64).wrapping_add(byte_at(&out, k)));
        }
    }
    sum
}

fn read_once(sum: u64, s: &[u8], out: &mut [u8]) -> u64 {
    let k = (sum % USER_MAX as u64) as usize;
    match frame::read_frame(s, out) {
        Ok(f) => {
            let fields = (f.len as u64).wrapping_add(u64::from(f.control));
            fold(sum, fields.wrapping_add(byte_at(out, k)))
        }
        Err(_) => sum,
    }
}

// Two frames by turns.
pub fn frame_read(count: u64) -> u64 {
    let mut user = [0u8; USER_MAX];
    let mut one = [0u8; FRAME_MAX];
    let mut other = [0u8; FRAME_MAX];
    let mut out = [0u8; USER_MAX];
    fill(&mut user, 1);
    let _ = frame::write_frame(&mut one, 68, 1, 10, &user);
    fill(&mut user, 2);
    let _ = frame::write_frame(&mut other, 196, 1, 10, &user);
    let mut sum: u64 = 1;
    for done in 0..count {
        let frame = if (count - done) % 2 == 0 {
            &one
        } else {
            &other
        };
        sum = read_once(sum, frame, &mut out);
    }
    sum
}
