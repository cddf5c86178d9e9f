// Packet types.
use packet_types::packet_type;
use script::{Numbers, Row, row_of};

// A line's number is below 256: any other is a bad line.
pub(crate) fn entry(numbers: &Numbers) -> Row {
    let entry = packet_type((numbers[0] & 0xff) as u8);
    row_of(&[
        u64::from(entry.family),
        u64::from(entry.version),
        u64::from(entry.fragment),
        u64::from(entry.l4),
    ])
}
