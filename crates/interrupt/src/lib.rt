// Interrupt control words: a request becomes a register's offset and the word to write there.
#![tactic(auto)]

ghost use Rattle.std.specs.Prelude.{◌≡◌, ◌≤◌};
ghost use Rattle.rules.specs.Rules.{any_of};
ghost use Rattle.interrupt.specs.Interrupt.{EnableAt, most_vector, wrongs, offset_of, interrupt_word, interrupt_of, fields_of};

use field::flag;
use rules::Refusal;

// What becomes of the enable bit.
#[derive(Clone, Copy, Debug, PartialEq, Eq)]
pub enum Enable {
    On,
    Off,
    Leave,
}

// A number that stands for no change of the enable bit.
#[derive(Clone, Copy, Debug, PartialEq, Eq)]
pub struct UnknownEnable(pub u64);

// The ITR index goes with an interval in microseconds; the trigger has an index of its own.
// Kept: trigger beside its index, and 3 for no ITR, as the register has them: a request that contradicts itself can be said, and is answered 9 (`wrongs`).
#[derive(Clone, Copy, Debug, PartialEq, Eq)]
pub struct Request {
    pub vector: u64,
    pub enable: Enable,
    pub write_back: bool,
    pub clear: bool,
    pub trigger: bool,
    pub trigger_index: u64,
    pub index: u64,
    pub interval: u64,
}

// The answer, the register's offset and the word to write there.
// Kept: zeros beside a refusal (`interrupt_of`; edit word_beside_9).
#[derive(Clone, Copy, Debug, PartialEq, Eq)]
pub struct Answer {
    pub answer: rules::Answer,
    pub offset: u64,
    pub word: u64,
}

// A word's fields by the register's own names. The interval is in 2 microsecond units.
#[derive(Clone, Copy, Debug, PartialEq, Eq)]
pub struct Fields {
    pub intena: bool,
    pub clearpba: bool,
    pub swint_trig: bool,
    pub itr_indx: u64,
    pub interval: u64,
    pub sw_itr_indx_ena: bool,
    pub sw_itr_indx: u64,
    pub wb_on_itr: bool,
    pub intena_msk: bool,
}

const VECTOR_MOST: u64 = 64;

const INDEX_MOST: u64 = 3;

// The index that stands for no ITR, and so has no interval.
const NO_ITR: u64 = 3;

// In microseconds, as is the register's unit.
const INTERVAL_MOST: u64 = 8160;

const INTERVAL_UNIT: u64 = 2;

// The registers of vector 0 and of vector 1; the others follow at steps of 4.
const DYN_CTL0: u64 = 0x5C00;

const DYN_CTLN: u64 = 0x3800;

// Where each field begins, and the numbers that it holds.
const INTENA: u64 = 0;

const CLEARPBA: u64 = 1;

const SWINT_TRIG: u64 = 2;

const ITR_INDX: u64 = 3;

const INTERVAL: u64 = 5;

const SW_ITR_INDX_ENA: u64 = 24;

const SW_ITR_INDX: u64 = 25;

const WB_ON_ITR: u64 = 30;

const INTENA_MSK: u64 = 31;

const TWO_BITS: u64 = 0x3;

const TWELVE_BITS: u64 = 0xfff;

impl TryFrom<u64> for Enable {
    type Error = UnknownEnable;

    ghost try_from_gives = { EnableAt };

    fn try_from(number: u64) -> Result<Self, UnknownEnable> {
        match number {
            0 => Ok(Enable::Off),
            1 => Ok(Enable::On),
            2 => Ok(Enable::Leave),
            _ => Err(UnknownEnable(number)),
        }
    }
}

fn wrong(q: Request) -> bool
    ensures { result ≡ any_of (wrongs q) }
{
    (VECTOR_MOST < q.vector)
        | (INDEX_MOST < q.index)
        | (INDEX_MOST < q.trigger_index)
        | (INTERVAL_MOST < q.interval)
        | (q.interval % INTERVAL_UNIT != 0)
        | ((q.interval != 0) & (q.index == NO_ITR))
        | ((q.trigger_index != 0) & !q.trigger)
        | (q.write_back & (q.enable != Enable::Off))
}

fn offset(vector: u64) -> u64
    requires { vector ≤ most_vector }
    ensures { result ≡ offset_of vector }
{
    if vector == 0 {
        DYN_CTL0
    } else {
        DYN_CTLN + 4 * (vector - 1)
    }
}

fn word(q: Request) -> u64
    ensures { result ≡ interrupt_word q }
{
    let on = q.enable == Enable::On;
    let leave = q.enable == Enable::Leave;
    (on as u64)
        | (q.clear as u64) << CLEARPBA
        | (q.trigger as u64) << SWINT_TRIG
        | (q.index & TWO_BITS) << ITR_INDX
        | (q.interval / INTERVAL_UNIT & TWELVE_BITS) << INTERVAL
        | (q.trigger as u64) << SW_ITR_INDX_ENA
        | (q.trigger_index & TWO_BITS) << SW_ITR_INDX
        | (q.write_back as u64) << WB_ON_ITR
        | (leave as u64) << INTENA_MSK
}

// Refused with 9 where a cause of `wrong` holds; zeros come with it.
pub fn interrupt(q: Request) -> Answer
    ensures { result ≡ interrupt_of q }
{
    if wrong(q) {
        return Answer {
            answer: Err(Refusal::WrongInterrupt),
            offset: 0,
            word: 0,
        };
    }
    Answer {
        answer: Ok(()),
        offset: offset(q.vector),
        word: word(q),
    }
}

// A register's word, field for field.
pub fn read(word: u64) -> Fields
    ensures { result ≡ fields_of word }
{
    Fields {
        intena: flag(word, INTENA),
        clearpba: flag(word, CLEARPBA),
        swint_trig: flag(word, SWINT_TRIG),
        itr_indx: (word >> ITR_INDX) & TWO_BITS,
        interval: (word >> INTERVAL) & TWELVE_BITS,
        sw_itr_indx_ena: flag(word, SW_ITR_INDX_ENA),
        sw_itr_indx: (word >> SW_ITR_INDX) & TWO_BITS,
        wb_on_itr: flag(word, WB_ON_ITR),
        intena_msk: flag(word, INTENA_MSK),
    }
}
