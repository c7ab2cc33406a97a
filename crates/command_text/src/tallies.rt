ghost use Rattle.std.specs.Prelude.{◌≡◌, ◌≤◌, length, reverse};
ghost use Rattle.std.specs.List.{sum};
ghost use Rattle.command_text.specs.Tallies.{with_answer, with_line, tally_of, HasRoom, GrowsLittle};

use blk_base::Answer;
use vdo_model::DeskLine;

/// How the requests of a run were answered.
#[derive(Clone, Copy, Debug, PartialEq, Eq)]
pub struct Tally {
    /// Requests that were answered ok or with bytes.
    pub ok: u64,
    /// Requests that were answered that there was no room: no space, or full.
    pub no_space: u64,
    /// The sum of all bytes read.
    pub read_sum: u128,
}

fn byte_sum(bytes: &[u8]) -> u128
    requires { length bytes.now ≡ 4096 }
    ensures value { result ≡ sum bytes.now }
    ensures small { result ≤ 1044480 }
{
    let mut sum: u128 = 0;
    for byte in bytes {
        sum += u128::from(*byte);
    }
    sum
}

impl Tally {
    fn count_answer(self, answer: &Answer) -> Tally
        requires { HasRoom self }
        ensures counted { result ≡ with_answer answer.now self }
        ensures little { GrowsLittle self result }
    {
        let mut counted = self;
        match answer {
            Answer::Ok => counted.ok += 1,
            Answer::Bytes(block) => {
                counted.ok += 1;
                counted.read_sum += byte_sum(&block.get().bytes);
            }
            Answer::NoSpace | Answer::Full => counted.no_space += 1,
            Answer::Range | Answer::ReadFault | Answer::Stopped | Answer::Damaged => {}
        }
        counted
    }

    fn count_line(self, line: &DeskLine) -> Tally
        requires { HasRoom self }
        ensures counted { result ≡ with_line line.now self }
        ensures little { GrowsLittle self result }
    {
        match line {
            DeskLine::Begin { .. } => self,
            DeskLine::Answer { answer, .. } => self.count_answer(answer),
        }
    }

    /// How the requests of a desk log were answered, of which the oldest line stands first.
    pub fn of_desk(desk: &[DeskLine]) -> Tally
        ensures { result ≡ tally_of (reverse desk.now) }
    {
        let mut tally = Tally {
            ok: 0,
            no_space: 0,
            read_sum: 0,
        };
        for at in 0..desk.len() {
            tally = tally.count_line(&desk[at]);
        }
        tally
    }
}
