// Runs of neighbouring pieces that are copied together. A plan is a list of run lengths, in pieces.
#![tactic(auto)]

ghost use Rattle.std.specs.Prelude.{◌≡◌, ◌+◌, ◌-◌, ◌≤◌, ◌<◌, min, cond, leb, eqb, length};
ghost use Rattle.request.specs.Sound.{most_length};
ghost use Rattle.segments.specs.Touch.{start_of};
ghost use Rattle.runs.specs.Runs.{covers, joined, noted, joined_addresses, valid};
ghost use Rattle.runs.specs.Steps.{told_by, Filled, Covered, Placed};

use pieces::MOST_LENGTH;

// The address that stands for every run that is copied.
const VALID: u64 = 1;

// ---- the plan of a cap

// Whether a run stays within the cap with one piece more.
fn stays(bytes: u64, length: u64, cap: u64) -> bool
    ensures { result ≡ leb (bytes + length) cap }
{
    match cap.checked_sub(bytes) {
        Some(room) => length <= room,
        None => false,
    }
}

// What is stored of a run.
#[derive(Clone, Copy, Debug, PartialEq, Eq)]
pub enum RunsBy {
    Pieces,
    Bytes,
}

fn told(by: RunsBy, pieces: u64, bytes: u64) -> u64
    ensures { result ≡ told_by by pieces bytes }
{
    match by {
        RunsBy::Pieces => pieces,
        RunsBy::Bytes => bytes,
    }
}

// The plan of a cap, each run told by its pieces or by its bytes: a run grows from the left while its bytes stay within the cap. Returns how
// many runs there are; places behind them are left. Nothing is stored if there are fewer places than pieces. `count` runs are closed, and
// the open one holds `held` pieces.
pub fn fill(lengths: &[u64], cap: u64, by: RunsBy, runs: &mut [u64]) -> usize
    ensures { Filled by lengths.now cap runs.old runs.new result }
{
    let n = lengths.len();
    if (1 <= n) & (n <= runs.len()) {
        // Kept: fewer runs than pieces are stored, so no zip gives the place.
        let mut count = 0;
        let mut held = 1;
        let mut bytes = lengths[0];
        for &l in &lengths[1..] {
            if stays(bytes, l, cap) {
                held += 1;
                bytes += l;
            } else {
                runs[count] = told(by, held, bytes);
                count += 1;
                held = 1;
                bytes = l;
            }
        }
        runs[count] = told(by, held, bytes);
        count + 1
    } else {
        0
    }
}

// ---- any plan

// Whether a plan covers n pieces once, in order.
pub fn covered(plan: &[u64], n: usize) -> bool
    ensures { result ≡ covers plan.now n }
{
    let mut left = n as u64;
    for &p in plan {
        if (1 <= p) & (p <= left) {
            left -= p;
        } else {
            return false;
        }
    }
    left == 0
}

// The bytes of the pieces `from` up to `upto`, or one more than a piece may have where there are more. So no sum wraps.
fn run_bytes(lengths: &[u64], from: usize, upto: usize) -> u64
    requires { (from ≤ upto) × (upto ≤ length lengths.now) }
    ensures { result ≡ min (start_of lengths.now upto - start_of lengths.now from) (most_length + 1) }
{
    let mut bytes = 0;
    for &l in &lengths[from..upto] {
        if l <= MOST_LENGTH - bytes {
            bytes += l;
        } else {
            // Kept: a number past the most, and no Option: `noted` has it in the list.
            return MOST_LENGTH + 1;
        }
    }
    bytes
}

// The lengths of the joined list, as they are noted.
pub fn join_lengths(lengths: &[u64], plan: &[u64], sizes: &mut [u64])
    requires { Covered (length lengths.now) plan.now sizes.old }
    ensures { sizes.new ≡ noted (joined lengths.now plan.now) }
{
    let mut at = 0;
    // Kept: a zip with plan was tried, here, in join_addresses and in place_copies. What is stored through it is not known after the loop: a proof
    // knows the slice's length and not its elements (the library's NOT_COVERED.md), so that `returns` does not close.
    for (r, size) in sizes.iter_mut().enumerate() {
        let next = at + plan[r] as usize;
        *size = run_bytes(lengths, at, next);
        at = next;
    }
}

// The address of a run of p pieces: a run of one keeps its own.
fn run_address(p: u64, own: u64, copied: u64) -> u64
    ensures { result ≡ cond (eqb p 1) own copied }
{
    if p == 1 { own } else { copied }
}

// The addresses of the joined list, where those of copied runs are taken as valid.
pub fn join_addresses(addresses: &[u64], plan: &[u64], places: &mut [u64])
    requires { Covered (length addresses.now) plan.now places.old }
    ensures { places.new ≡ joined_addresses addresses.now plan.now valid }
{
    let mut at = 0;
    for (r, place) in places.iter_mut().enumerate() {
        let p = plan[r];
        *place = run_address(p, addresses[at], VALID);
        at += p as usize;
    }
}

// Puts the addresses of copied runs among those that runs of one keep.
pub fn place_copies(plan: &[u64], joined: &[u64], places: &mut [u64])
    requires { (length joined.now ≡ length plan.now) × (length places.old ≡ length plan.now) }
    ensures { Placed plan.now joined.now places.old places.new }
{
    for (r, place) in places.iter_mut().enumerate() {
        *place = run_address(plan[r], *place, joined[r]);
    }
}
