// What an operation gives back that has more to say than document 01's numbers (document 02, Items 7, 11, 12 and 14): the position of the
// record or file that a refusal is about, and a count.

#![tactic(auto)]

ghost use Rattle.std.specs.Prelude.{◌≡◌, ◌<◌};
ghost use Rattle.refusals.specs.Refusals.{refusal_of};
ghost use Rattle.set_answers.specs.Answers.{Refuses, Accepts};

use refusals::Refusal;

#[derive(Drop)]
pub struct Given {
    pub number: u32,
    pub position: u32,
    pub line: u32,
    pub visited: u32,
    pub tried: u32,
    pub used: u32,
    pub count: u32,
}

fn narrow(n: usize) -> u32
    requires { n < 4294967296 }
    ensures { result ≡ n }
{
    n as u32
}

pub fn refused(why: Refusal, position: usize, line: usize) -> Given
    requires { (position < 4294967296) × (line < 4294967296) }
    ensures { Refuses result (record { why = refusal_of why; position = position; line = line }) }
{
    Given {
        number: refusals::number(why),
        position: narrow(position),
        line: narrow(line),
        visited: 0,
        tried: 0,
        used: 0,
        count: 0,
    }
}

pub fn accepted(visited: usize, tried: usize, used: usize, count: usize) -> Given
    requires { (visited < 4294967296) × (tried < 4294967296) × (used < 4294967296) × (count < 4294967296) }
    ensures { Accepts result visited tried used count }
{
    Given {
        number: 0,
        position: 0,
        line: 0,
        visited: narrow(visited),
        tried: narrow(tried),
        used: narrow(used),
        count: narrow(count),
    }
}
