// The pairs of a line, read into a table.

#![tactic(auto)]

ghost use Rattle.std.specs.Prelude.{◌≡◌, ℕ, ◌+◌, ◌-◌, ◌≤◌, ◌<◌, length};
ghost use Rattle.keys.specs.Table.{key_of};
ghost use Rattle.table.specs.Table.{Rows};
ghost use Rattle.rule_lines.specs.Filling.{start, noted_once, Held, Room};
ghost use Rattle.rule_lines.specs.Answers.{StepIs, PairsAre};

use keys::Key;
use refusals::Refusal;

// How far a table is filled, and the rows of the LABEL and of the GOTO of the line at hand.
#[derive(Clone, Copy)]
pub struct Fill {
    pub label: Option<usize>,
    pub goto: Option<usize>,
    pub rows: usize,
    pub used: usize,
}

// The key of the pair that comes next: a second LABEL or GOTO is not taken.
fn note(key: Key, fill: Fill) -> Option<Fill>
    ensures { result ≡ noted_once (key_of key) fill }
{
    let row = Some(fill.rows);
    match kinds::key_number(key) {
        17 if fill.label.is_some() => None,
        17 => Some(Fill { label: row, ..fill }),
        18 if fill.goto.is_some() => None,
        18 => Some(Fill { goto: row, ..fill }),
        _ => Some(fill),
    }
}

// A table with a pair more, and where another pair stands behind it, if one follows.
#[derive(Clone, Copy)]
pub struct Step {
    pub fill: Fill,
    pub next: Option<usize>,
}

// The pair at a place, where left pairs are still allowed.
fn pair_step(
    line: &[u8],
    at: usize,
    left: usize,
    values: &mut [u8],
    rows: &mut [u16],
    fill: Fill,
) -> Result<Step, Refusal>
    requires { (at ≤ length line.now) × Room (length line.now - at + 1) values.old rows.old fill }
    ensures { (from beyond : ℕ) → Held values.old rows.old from fill → Room (beyond + (length line.now - at) + 1) values.old rows.old fill → StepIs line.now at left from beyond fill values.old rows.old values.new rows.new result }
{
    let judged = pair_content::read_pair(line, at)?;
    if left == 0 {
        return Err(Refusal::PairExtra);
    }
    let next = judged.pair.next;
    let Some(noted) = note(judged.pair.key, fill) else {
        return Err(Refusal::PairExtra);
    };
    let used = table::put_pair(
        values,
        rows,
        noted.rows,
        noted.used,
        line,
        judged.pair,
        judged.plain,
    );
    let after = Fill {
        rows: noted.rows + 1,
        used,
        ..noted
    };
    if line.len() <= next {
        return Ok(Step {
            fill: after,
            next: None,
        });
    }
    if line[next] != b',' {
        return Err(Refusal::CommaMissing);
    }
    Ok(Step {
        fill: after,
        next: Some(next + 1),
    })
}

// The pairs of a line from a place on, behind the rows of the lines before it.
pub fn read_pairs(
    line: &[u8],
    at: usize,
    values: &mut [u8],
    rows: &mut [u16],
    n: usize,
    used: usize,
) -> Result<Fill, Refusal>
    requires { (at ≤ length line.now) × Rows values.old rows.old n used × Room (length line.now - at + 1) values.old rows.old (start n used) }
    ensures { (beyond : ℕ) → Room (beyond + (length line.now - at) + 1) values.old rows.old (start n used) → PairsAre line.now at beyond (start n used) values.old rows.old values.new rows.new result }
{
    let mut i = at;
    let mut left: usize = 32;
    let mut fill = Fill {
        label: None,
        goto: None,
        rows: n,
        used,
    };
    loop {
        let step = pair_step(line, i, left, values, rows, fill)?;
        fill = step.fill;
        let Some(next) = step.next else {
            return Ok(fill);
        };
        i = next;
        left -= 1;
    }
}
