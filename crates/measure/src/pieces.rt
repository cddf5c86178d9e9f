// The pieces of a packet that is sent.
use parts::store;

fn address(i: u64) -> u64 {
    0x100000 | (i % 65536) << 14
}

// The pieces behind the first: equal parts, and in the last one what is left.
pub fn lay_out(addresses: &mut [u64], lengths: &mut [u64], behind: u64) {
    let n = lengths.len();
    let each = behind
        .checked_div((n as u64).saturating_sub(1))
        .unwrap_or(0);
    let mut left = behind;
    for (i, length) in lengths.iter_mut().enumerate().skip(1) {
        store(addresses, i, address(i as u64));
        *length = if i + 1 < n { each } else { left };
        left = left.saturating_sub(each);
    }
}

// The first piece, laid out anew.
pub fn lay_first(addresses: &mut [u64], lengths: &mut [u64], i: u64, first: u64) {
    store(addresses, 0, address(i));
    store(lengths, 0, first);
}
