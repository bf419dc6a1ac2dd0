// What every public operation gives back beside the target: document 01's numbers, and the devices tried of document 02, Item 9.

#![tactic(auto)]

ghost use Rattle.std.specs.Prelude.{◌<◌};
ghost use Rattle.refusals.specs.Refusals.{refusal_of};
ghost use Rattle.answers.specs.Answers.{Refuses, Accepts};

use refusals::Refusal;

#[derive(Clone, Copy)]
pub struct Given {
    pub number: u32,
    pub line: u32,
    pub visited: u32,
    pub tried: u32,
    pub used: u32,
}

pub fn refused(why: Refusal, line: usize) -> Given
    requires { line < 4294967296 }
    ensures { Refuses result line (refusal_of why) }
{
    Given {
        number: refusals::number(why),
        line: line as u32,
        visited: 0,
        tried: 0,
        used: 0,
    }
}

pub fn accepted(visited: usize, tried: usize, used: usize) -> Given
    requires { (visited < 4294967296) × (tried < 4294967296) × (used < 4294967296) }
    ensures { Accepts result visited tried used }
{
    Given {
        number: 0,
        line: 0,
        visited: visited as u32,
        tried: tried as u32,
        used: used as u32,
    }
}
