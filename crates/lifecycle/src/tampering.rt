//! Records that are tampered with, so that the practice hash gives way.

use records::layout;

// The row of strings of a release record; none where the record is too short for one.
fn strings(record: &mut [u8]) -> &mut [[u8; 16]] {
    match record.get_mut(layout::ROW..) {
        Some(row) => row.as_chunks_mut().0,
        None => &mut [],
    }
}

/// Puts in place of string `k` another one that the practice hash steps to the same: it halves each
/// byte, so the lowest bit is lost. A record without that string stays.
pub(crate) fn step_twin(record: &mut [u8], k: usize) {
    if let Some(string) = strings(record).get_mut(k) {
        string[0] ^= 1;
    }
}

/// Puts in place of strings `k` and `k + 1` two others that the practice hash pairs to the same under
/// masks of ones: it adds them, so what one gains the other may lose. A record without them stays.
pub(crate) fn pair_twin(record: &mut [u8], k: usize) {
    let Some(row) = strings(record).get_mut(k..) else {
        return;
    };
    if let [left, right, ..] = row {
        left[0] = (left[0] ^ 1).wrapping_add(1) ^ 1;
        right[0] = (right[0] ^ 1).wrapping_sub(1) ^ 1;
    }
}
