// Answer 8 of a segmented send: whether some segment touches over 8 pieces, in one walk over the pieces and with no loop
// over the segments. The functions here are called by a send that has made the checks before; what these have shown is required.
#![tactic(auto)]

ghost use Rattle.std.specs.Prelude.{◌≡◌, ◌*◌, ◌/◌, ◌≤◌, ◌<◌, ◌^◌, min, length};
ghost use Rattle.segments.specs.Touch.{header_pieces, start_of, total, header_within, is_crowded};
ghost use Rattle.segments.specs.Steps.{sum_limit, Summed, Checked, Headed};

// A segment may touch this many pieces.
const MOST_TOUCHED: usize = 8;

// The header ends within this many pieces, the first.
const HEADER_PIECES: usize = 3;

// The bytes of the first `n` pieces.
fn sum(lengths: &[u64], n: usize) -> u64
    requires { Summed lengths.now n }
    ensures { result ≡ start_of lengths.now n }
{
    lengths[..n].iter().sum()
}

// Whether the header ends within the first three pieces; there may be fewer.
pub fn header_within(lengths: &[u64], header: u64) -> bool
    requires { total lengths.now < 2 ^ 64 }
    ensures { result ≡ header_within lengths.now header }
{
    header <= sum(lengths, lengths.len().min(HEADER_PIECES))
}

// How many pieces hold a header byte.
fn header_pieces(lengths: &[u64], header: u64) -> usize
    requires { (header_pieces ≤ length lengths.now) × (header ≤ start_of lengths.now header_pieces) × (total lengths.now < 2 ^ 64) }
    ensures { Headed lengths.now header result }
{
    let mut s = 0;
    for (i, &length) in lengths.iter().enumerate().take(HEADER_PIECES) {
        if header <= s {
            return i;
        }
        s += length;
    }
    HEADER_PIECES
}

// The bytes of a segment, where there are several. One that is longer than the payload is as good as one of its length.
fn spacing(mss: u64, tlen: u64) -> u32
    requires { tlen < sum_limit }
    ensures { result ≡ min mss tlen }
{
    mss.min(tlen) as u32
}

// The first byte of the segment that holds a byte. All totals have 32 bits, so that the division need not have more.
fn segment_start(byte: u64, step: u32) -> u64
    requires { (byte < sum_limit) × (1 ≤ step) }
    ensures { result ≡ byte / step * step }
{
    byte - (byte as u32 % step) as u64
}

// Whether some segment touches over 8 pieces. The run of payload pieces i to i + (8 - head) makes 9 with those of the header. One
// segment touches them all exactly if the segment that holds the first byte of the run's last piece begins before its first
// piece ends. `start` and `end` are the payload's bytes before that last piece and up to the end of that first one.
pub fn crowded(lengths: &[u64], header: u64, mss: u64, tlen: u64) -> bool
    requires { Checked lengths.now header mss tlen }
    ensures { result ≡ is_crowded lengths.now header mss tlen }
{
    if lengths.len() <= MOST_TOUCHED {
        return false;
    }
    let head = header_pieces(lengths, header);
    let step = spacing(mss, tlen);
    let mut end = sum(lengths, head + 1) - header;
    let mut start = sum(lengths, MOST_TOUCHED) - header;
    // Of each run its last piece, and the first piece of the run after it.
    for (&last, &next) in lengths[MOST_TOUCHED..].iter().zip(&lengths[head + 1..]) {
        if segment_start(start, step) < end {
            return true;
        }
        start += last;
        end += next;
    }
    false
}
