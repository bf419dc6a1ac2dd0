// A rules text, read into a table: 2, then 20 and 10 to 18 line by line, then 19. Its lines can also be read to the end, each fault noted.

#![tactic(auto)]

ghost use Rattle.std.specs.Prelude.{◌≡◌, true, false, [], ◌∷◌, ℕ, ◌+◌, ◌-◌, ◌*◌, ◌≤◌, ◌<◌, length, drop};
ghost use Rattle.lists.specs.Bytes.{holds};
ghost use Rattle.lists.specs.Refusal as refusal;
ghost use Rattle.lists.specs.Sizes.{most_rules, most_text};
ghost use Rattle.striking.specs.Striking.{most_strikes};
ghost use Rattle.refusals.specs.Refusals.{refusal_of};
ghost use Rattle.lines.specs.Ends.{Found};
ghost use Rattle.table.specs.Table.{Rows};
ghost use Rattle.table.specs.Puts.{Added};
ghost use Rattle.rule_lines.specs.Filling.{start, Room};
ghost use Rattle.table.specs.Rules.{mark_of};
ghost use Rattle.reader.specs.Texts.{TextIs};
ghost use Rattle.reader.specs.Read.{LineIs, RulePut, Lends, RuleNoted, FaultTaken, Reads, TakenIs, EndedIs, AllNoted, LinesAre};

use lines::{Extent, Line, LineFault};
use refusals::{LineRefusal, Refusal};
use rule_lines::Fill;

// A line without its newline, and without NUL, behind n rows: its rule, unless it is skipped.
fn read_line(
    line: &[u8],
    values: &mut [u8],
    rows: &mut [u16],
    n: usize,
    used: usize,
) -> Result<Option<Fill>, Refusal>
    requires { (holds 0 line.now ≡ false) × Rows values.old rows.old n used × Room (length line.now + 1) values.old rows.old (start n used) }
    ensures { (beyond : ℕ) → Room (beyond + length line.now + 1) values.old rows.old (start n used) → LineIs line.now beyond n used values.old rows.old values.new rows.new result }
{
    let at = scan::blank_end(line, 0);
    if 1024 < line.len() {
        return Err(Refusal::LineBad);
    }
    if line.len() <= at || line[at] == b'#' {
        return Ok(None);
    }
    let fill = rule_lines::read_pairs(line, at, values, rows, n, used)?;
    Ok(Some(fill))
}

// ---- the rules

// How many rules, rows and bytes of values a table holds.
#[derive(Clone, Copy)]
pub struct Counts {
    pub rules: usize,
    pub rows: usize,
    pub used: usize,
}

fn put_rule(rules: &mut [u16], labels: &mut [u16], i: usize, number: usize, from: usize, fill: Fill)
    requires { (i < most_rules) × (length rules.old ≡ most_rules * 4) × (length labels.old ≡ most_rules) × (number < 65536) × (from ≤ fill.rows) × (fill.rows < 65536) × (mark_of fill.label ≤ fill.rows) × (mark_of fill.goto ≤ fill.rows) }
    ensures { RulePut i number from fill rules.old labels.old rules.new labels.new }
{
    let goto = usize::from(table::mark(fill.goto));
    table::put_four(rules, i * 4, number, from, fill.rows, goto);
    labels[i] = table::mark(fill.label);
}

// ---- notes of lines (document 02, Item 12)

// A line that is not skipped is noted in a list by two numbers, its own and that of its fault, 18 included; a rule has 0 there. A text that is
// read strictly has no notes: its first fault refuses it.

fn fault_number(f: Refusal) -> usize
    ensures { (result ≡ refusal.number (refusal_of f)) × (result < 65536) }
{
    refusals::number(f) as usize
}

// Puts a line and the number of its fault behind the first `used` numbers.
pub fn put_note(list: &mut [u16], used: usize, number: usize, fault: usize) -> usize
    requires { (used + 2 ≤ length list.old) × (number < 65536) × (fault < 65536) }
    ensures { (result ≡ used + 2) × Added (number ∷ fault ∷ []) used list.old list.new × (drop (used + 2) list.new ≡ drop (used + 2) list.old) }
{
    list[used] = table::short(number);
    list[used + 1] = table::short(fault);
    used + 2
}

// Notes a rule, unless the text is read strictly.
fn note_rule(list: &mut [u16], used: usize, number: usize, strict: bool) -> usize
    requires { (number < 65536) × (strict ≡ false → used + 2 ≤ length list.old) }
    ensures { RuleNoted number used strict list.old list.new result }
{
    if strict {
        return used;
    }
    put_note(list, used, number, 0)
}

// ---- the lines

// Where the next line begins, its number, what the table holds, and how many numbers the list of notes holds.
#[derive(Clone, Copy)]
pub struct Place {
    pub at: usize,
    pub number: usize,
    pub counts: Counts,
    pub used: usize,
}

impl Place {
    // The place behind a line.
    fn behind(self, line: Extent) -> Self
        requires { (self.number + line.newlines ≤ line.end + 1) × (line.end ≤ most_text) }
        ensures { result ≡ record { at = line.end + 1; number = self.number + line.newlines + 1; counts = self.counts; used = self.used } }
    {
        Place {
            at: line.end + 1,
            number: self.number + line.newlines + 1,
            ..self
        }
    }
}

// A line with a fault, up to its end: the text is refused, or the fault is noted.
fn take_fault(
    list: &mut [u16],
    place: Place,
    fault: LineFault,
    strict: bool,
) -> Result<Place, Refusal>
    requires { (place.number + fault.extent.newlines ≤ fault.extent.end + 1) × (place.number < 65536) × (fault.extent.end ≤ most_text) × (strict ≡ false → place.used + 2 ≤ length list.old) }
    ensures { FaultTaken list.old list.new place fault strict result }
{
    if strict {
        return Err(fault.refusal);
    }
    let used = put_note(list, place.used, place.number, fault_number(fault.refusal));
    Ok(Place {
        used,
        ..place.behind(fault.extent)
    })
}

// Reads a line into the table, behind those before it.
fn take_held<'a>(
    text: &'a [u8],
    copy: &'a [u8],
    line: Line,
    values: &mut [u8],
    rows: &mut [u16],
    rules: &mut [u16],
    labels: &mut [u16],
    list: &mut [u16],
    place: Place,
    strict: bool,
) -> Result<Place, Refusal>
    requires { Reads text.now copy.now values.old rows.old rules.old labels.old list.old strict place × Found text.now copy.now place.at line }
    ensures { TakenIs text.now place values.new rows.new rules.new labels.new list.new strict result }
{
    let count = place.counts.rules;
    let from = place.counts.rows;
    let extent = line.extent;
    let bytes = lines::bytes_of(text, copy, place.at, line);
    match read_line(bytes, values, rows, from, place.counts.used) {
        Ok(None) => Ok(place.behind(extent)),
        Err(refusal) => take_fault(list, place, LineFault { extent, refusal }, strict),
        Ok(Some(fill)) => {
            if 512 <= count {
                let refusal = Refusal::RuleExtra;
                return take_fault(list, place, LineFault { extent, refusal }, strict);
            }
            put_rule(rules, labels, count, place.number, from, fill);
            let used = note_rule(list, place.used, place.number, strict);
            let counts = Counts {
                rules: count + 1,
                rows: fill.rows,
                used: fill.used,
            };
            Ok(Place {
                counts,
                used,
                ..place.behind(extent)
            })
        }
    }
}

// Reads the line at a place: 20, then 10 to 18.
fn take_line(
    text: &[u8],
    copy: &mut [u8],
    values: &mut [u8],
    rows: &mut [u16],
    rules: &mut [u16],
    labels: &mut [u16],
    list: &mut [u16],
    place: Place,
    strict: bool,
) -> Result<Place, Refusal>
    requires { Reads text.now copy.old values.old rows.old rules.old labels.old list.old strict place }
    ensures { TakenIs text.now place values.new rows.new rules.new labels.new list.new strict result }
{
    match lines::find_line(text, place.at, copy) {
        Ok(line) => take_held(
            text, copy, line, values, rows, rules, labels, list, place, strict,
        ),
        Err(fault) => take_fault(list, place, fault, strict),
    }
}

// Reads the lines up to the end of the text, or, read strictly, to the first that has a fault.
fn take_lines(
    text: &[u8],
    values: &mut [u8],
    rows: &mut [u16],
    rules: &mut [u16],
    labels: &mut [u16],
    list: &mut [u16],
    strict: bool,
) -> Result<Place, LineRefusal>
    requires { (length text.now ≤ most_text) × Lends (length text.now) values.old rows.old × (length rules.old ≡ most_rules * 4) × (length labels.old ≡ most_rules) × (strict ≡ false → most_strikes * 2 ≤ length list.old) }
    ensures { EndedIs text.now values.new rows.new rules.new labels.new list.new strict result }
{
    let mut copy = [0u8; 1024];
    let mut place = Place {
        at: 0,
        number: 1,
        counts: Counts {
            rules: 0,
            rows: 0,
            used: 0,
        },
        used: 0,
    };
    while place.at <= text.len() {
        match take_line(
            text, &mut copy, values, rows, rules, labels, list, place, strict,
        ) {
            Ok(next) => place = next,
            Err(refusal) => {
                return Err(LineRefusal {
                    refusal,
                    line: place.number,
                });
            }
        }
    }
    Ok(place)
}

// Reads all lines, each fault noted.
pub fn note_lines(
    text: &[u8],
    values: &mut [u8],
    rows: &mut [u16],
    rules: &mut [u16],
    labels: &mut [u16],
    list: &mut [u16],
) -> Place
    requires { (length text.now ≤ most_text) × Lends (length text.now) values.old rows.old × (length rules.old ≡ most_rules * 4) × (length labels.old ≡ most_rules) × (most_strikes * 2 ≤ length list.old) }
    ensures { AllNoted text.now values.new rows.new rules.new labels.new list.new result }
{
    take_lines(text, values, rows, rules, labels, list, false).unwrap()
}

// Reads all lines strictly.
fn read_lines(
    text: &[u8],
    values: &mut [u8],
    rows: &mut [u16],
    rules: &mut [u16],
    labels: &mut [u16],
) -> Result<Counts, LineRefusal>
    requires { (length text.now ≤ most_text) × Lends (length text.now) values.old rows.old × (length rules.old ≡ most_rules * 4) × (length labels.old ≡ most_rules) }
    ensures { LinesAre text.now values.new rows.new rules.new labels.new result }
{
    let mut none = [0u16; 1];
    let place = take_lines(text, values, rows, rules, labels, &mut none, true)?;
    Ok(place.counts)
}

// ---- a text

// Reads a text into a table, with its jumps.
pub fn read_text(
    text: &[u8],
    values: &mut [u8],
    rows: &mut [u16],
    rules: &mut [u16],
    labels: &mut [u16],
    jumps: &mut [u16],
) -> Result<Counts, LineRefusal>
    requires { (length text.now ≤ most_text → Lends (length text.now) values.old rows.old) × (length rules.old ≡ most_rules * 4) × (length labels.old ≡ most_rules) × (length jumps.old ≡ most_rules) }
    ensures { TextIs text.now values.new rows.new rules.new labels.new jumps.new result }
{
    if 32768 < text.len() {
        return Err(LineRefusal {
            refusal: Refusal::TextLong,
            line: 0,
        });
    }
    let counts = read_lines(text, values, rows, rules, labels)?;
    match jumps::settle(values, rows, rules, labels, jumps, counts.rules) {
        Ok(()) => Ok(counts),
        Err(line) => Err(LineRefusal {
            refusal: Refusal::LabelMissing,
            line,
        }),
    }
}
