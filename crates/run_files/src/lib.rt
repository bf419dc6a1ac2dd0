// The run of a set of files, a public operation (document 02, Item 11).

#![tactic(auto)]

ghost use Rattle.std.specs.Prelude.{◌≡◌, true, ◌+◌, ◌≤◌, ◌<◌, length};
ghost use Rattle.lists.specs.Lists.{is_some};
ghost use Rattle.lists.specs.Sizes.{fullest_outcome};
ghost use Rattle.sheet.specs.Sheet.{decode};
ghost use Rattle.files.specs.Operation.{files};
ghost use Rattle.refusals.specs.Refusals.{refusal_of};
ghost use Rattle.sets.specs.Answer.{refusal};
ghost use Rattle.set_answers.specs.Answers.{answered};
ghost use Rattle.records.specs.Records.{Ready};
ghost use Rattle.run.specs.Running.{Both};
ghost use Rattle.run_files.specs.Running.{TextIsJudged, Ranked, FilesAreRead, Readable, TextRuns, FilesRun, Winning};

use device_lookup::Chain;
use outcome_target::Layout;
use refusals::{LineRefusal, Refusal, SetRefusal};
use runner::Ended;
use set_answers::Given;

// ---- one text

// Reads a text; its rules are not kept.
fn judge_text(text: &[u8]) -> Result<(), LineRefusal>
    ensures { TextIsJudged text.now result }
{
    let mut values = [0u8; 32768];
    let mut rows = [0u16; 18728];
    let mut rules = [0u16; 2048];
    let mut labels = [0u16; 512];
    let mut jumps = [0u16; 512];
    reader::read_text(
        text,
        &mut values,
        &mut rows,
        &mut rules,
        &mut labels,
        &mut jumps,
    )?;
    Ok(())
}

// Reads a text and runs its rules over the record that lies in the target, with its layout.
fn run_text(
    text: &[u8],
    dev: &[u8],
    chain: Chain,
    sheet: &[u8],
    t: &mut [u8],
    layout: Layout,
) -> Result<Ended, LineRefusal>
    requires { Ready dev.now chain t.old layout × (is_some (decode sheet.now) ≡ true) }
    ensures { TextRuns text.now dev.now chain sheet.now t.old layout t.new result }
{
    let mut values = [0u8; 32768];
    let mut rows = [0u16; 18728];
    let mut rules = [0u16; 2048];
    let mut labels = [0u16; 512];
    let mut jumps = [0u16; 512];
    let counts = reader::read_text(
        text,
        &mut values,
        &mut rows,
        &mut rules,
        &mut labels,
        &mut jumps,
    )?;
    runner::run_rules(
        &values,
        &rows,
        &rules,
        &jumps,
        counts.rules,
        dev,
        chain,
        sheet,
        t,
        layout,
    )
}

// ---- all texts, in the order of their files

// A refusal of file i is of the set, with the file's position.
fn of_file(fault: LineRefusal, i: usize) -> SetRefusal
    requires { i < 4294967296 }
    ensures { result ≡ record { refusal = fault.refusal; position = i + 1; line = fault.line } }
{
    SetRefusal {
        refusal: fault.refusal,
        position: i + 1,
        line: fault.line,
    }
}

fn read_files(set: &[u8], starts: &[usize], order: &[u8], count: usize) -> Result<(), SetRefusal>
    requires { Ranked set.now starts.now order.now count }
    ensures { FilesAreRead set.now starts.now order.now count result }
{
    for k in 0..count {
        let i = usize::from(order[k]);
        if let Err(fault) = judge_text(file_rows::text_of(set, starts[i])) {
            return Err(of_file(fault, i));
        }
    }
    Ok(())
}

// Runs the files, each over what the one before left.
fn run_all(
    set: &[u8],
    starts: &[usize],
    order: &[u8],
    count: usize,
    dev: &[u8],
    chain: Chain,
    sheet: &[u8],
    t: &mut [u8],
    layout: Layout,
) -> Result<Ended, SetRefusal>
    requires { Ranked set.now starts.now order.now count × Readable set.now starts.now order.now count × Ready dev.now chain t.old layout × (is_some (decode sheet.now) ≡ true) }
    ensures { FilesRun set.now starts.now order.now count dev.now chain sheet.now t.old layout t.new result }
{
    let mut layout = layout;
    let mut visited = 0;
    let mut tried = 0;
    for k in 0..count {
        let i = usize::from(order[k]);
        let text = file_rows::text_of(set, starts[i]);
        match run_text(text, dev, chain, sheet, t, layout) {
            Ok(ended) => {
                layout = ended.layout;
                visited += ended.visited;
                tried += ended.tried;
            }
            Err(fault) => return Err(of_file(fault, i)),
        }
    }
    Ok(Ended {
        layout,
        visited,
        tried,
    })
}

// ---- the operation

// A set that leaves nothing.
fn refuse(why: Refusal, position: usize, line: usize, t: &mut [u8]) -> Given
    requires { (position < 4294967296) × (line < 4294967296) }
    ensures { answered result t.new ≡ refusal (length t.old) (record { why = refusal_of why; position = position; line = line }) }
{
    splice::clear(t);
    set_answers::refused(why, position, line)
}

// The runs over sound records.
fn run_sound(
    set: &[u8],
    starts: &[usize],
    n: usize,
    order: &[u8],
    count: usize,
    dev: &[u8],
    chain: Chain,
    sheet: &[u8],
    rec: &[u8],
    layout: Layout,
    t: &mut [u8],
) -> Given
    requires { Winning set.now starts.now n order.now count × Readable set.now starts.now order.now count × Both dev.now rec.now chain layout × (is_some (decode sheet.now) ≡ true) × (fullest_outcome ≤ length t.old) }
    ensures { answered result t.new ≡ files set.now dev.now rec.now sheet.now (length t.old) }
{
    outcome_target::load(t, rec);
    match run_all(set, starts, order, count, dev, chain, sheet, t, layout) {
        Ok(ended) => set_answers::accepted(ended.visited, ended.tried, ended.layout.end, 0),
        Err(fault) => refuse(fault.refusal, fault.position, fault.line, t),
    }
}

// The files that count, all of them read: 3, 4, 6, then the runs.
fn run_read(
    set: &[u8],
    starts: &[usize],
    n: usize,
    order: &[u8],
    count: usize,
    dev: &[u8],
    rec: &[u8],
    sheet: &[u8],
    t: &mut [u8],
) -> Given
    requires { Winning set.now starts.now n order.now count × Readable set.now starts.now order.now count × (fullest_outcome ≤ length t.old) }
    ensures { answered result t.new ≡ files set.now dev.now rec.now sheet.now (length t.old) }
{
    if !device_check::check(dev) {
        return refuse(Refusal::DeviceBad, 0, 0, t);
    }
    let chain = device_lookup::chain_of(dev);
    let Some(layout) = outcome_check::check(rec, chain.len) else {
        return refuse(Refusal::OutcomeBad, 0, 0, t);
    };
    if !sheet_check::check(sheet) {
        return refuse(Refusal::SheetBad, 0, 0, t);
    }
    run_sound(
        set, starts, n, order, count, dev, chain, sheet, rec, layout, t,
    )
}

// The files that count: their texts first.
fn run_winners(
    set: &[u8],
    starts: &[usize],
    n: usize,
    order: &[u8],
    count: usize,
    dev: &[u8],
    rec: &[u8],
    sheet: &[u8],
    t: &mut [u8],
) -> Given
    requires { Winning set.now starts.now n order.now count × (fullest_outcome ≤ length t.old) }
    ensures { answered result t.new ≡ files set.now dev.now rec.now sheet.now (length t.old) }
{
    match read_files(set, starts, order, count) {
        Ok(()) => run_read(set, starts, n, order, count, dev, rec, sheet, t),
        Err(fault) => refuse(fault.refusal, fault.position, fault.line, t),
    }
}

pub fn run_files(set: &[u8], dev: &[u8], rec: &[u8], sheet: &[u8], t: &mut [u8]) -> Given
    ensures { answered result t.new ≡ files set.now dev.now rec.now sheet.now (length t.old) }
{
    if t.len() < outcome_target::FULLEST {
        return refuse(Refusal::TargetShort, 0, 0, t);
    }
    let mut starts = [0usize; 32];
    let Some(n) = file_rows::find_files(set, &mut starts) else {
        return refuse(Refusal::SetBad, 0, 0, t);
    };
    if file_order::doubled(set, &starts, n) {
        return refuse(Refusal::FileTwice, 0, 0, t);
    }
    let mut order = [0u8; 32];
    let count = file_order::winners(set, &starts, n, &mut order);
    run_winners(set, &starts, n, &order, count, dev, rec, sheet, t)
}
