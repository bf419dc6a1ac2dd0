// Substitution: what each piece of a template inserts, and the whole text of a template.

#![tactic(auto)]

ghost use Rattle.std.specs.Prelude.{◌≡◌, true, ◌+◌, ◌≤◌, length, drop};
ghost use Rattle.lists.specs.Runs.{trim, end_digits};
ghost use Rattle.lists.specs.Sizes.{most_chain, most_substituted};
ghost use Rattle.bits.specs.Bits.{number_at};
ghost use Rattle.entries.specs.Entry.{or_empty};
ghost use Rattle.rows.specs.Row.{Row, find_in, part_of};
ghost use Rattle.template.specs.Decimal.{decimal as decimal_text};
ghost use Rattle.template.specs.Template.{well_formed};
ghost use Rattle.pieces.specs.Read.{meaning, PieceWithin};
ghost use Rattle.scan.specs.Ends.{RunEnd};
ghost use Rattle.device.specs.Device.{name_of, attr_of};
ghost use Rattle.device_lookup.specs.Lookup.{Standing, OfMember};
ghost use Rattle.engine.specs.Substitute.{of_matched, attr_at, first_of, piece_text, filled};
ghost use Rattle.insertion.specs.Append.{asked, Appended};
ghost use Rattle.substitution.specs.Places.{MatchedStands, OfMatched, Sourced, OfSource, places_in};
ghost use Rattle.substitution.specs.Turns.{is_plain, GoesOn, Turned, Filled};

use bits::BitCursor;
use device_lookup::Chain;
use pieces::Piece;
use rows::Kind;

// Where inserted text comes from: the places where the event device and the matched one, if there is one, begin in the device record, the
// place of the properties in the outcome record and how many there are.
#[derive(Clone, Copy)]
pub struct Places {
    pub event: usize,
    pub matched: Option<usize>,
    pub properties: usize,
    pub count: usize,
}

pub fn places_of(chain: Chain, place: usize, properties: usize, count: usize) -> Places
    requires { place ≤ most_chain }
    ensures { result ≡ places_in chain place properties count }
{
    let at = chain.at;
    Places {
        event: at[0],
        matched: if place == 0 {
            None
        } else {
            Some(at[place - 1])
        },
        properties,
        count,
    }
}

// ---- what is inserted

// The digits at the end of a device's name.
fn put_number(dev: &[u8], at: usize, spaceless: bool, out: &mut [u8], used: usize) -> Option<usize>
    requires { Standing dev.now at × (used ≤ length out.old) }
    ensures { OfMember dev.now at (λ m. Appended (asked spaceless (end_digits (name_of m))) out.old used result out.new) }
{
    let name = device_view::name_at(dev, at);
    let start = scan::digits_start(name);
    insertion::put_text(out, used, &name[start..], spaceless)
}

// The name of the matched device.
fn put_id(
    dev: &[u8],
    matched: Option<usize>,
    spaceless: bool,
    out: &mut [u8],
    used: usize,
) -> Option<usize>
    requires { MatchedStands dev.now matched × (used ≤ length out.old) }
    ensures { OfMatched dev.now matched (λ o. Appended (asked spaceless (of_matched o name_of)) out.old used result out.new) }
{
    match matched {
        Some(at) => insertion::put_text(out, used, device_view::name_at(dev, at), spaceless),
        None => Some(used),
    }
}

// The driver of the matched device.
fn put_driver(
    dev: &[u8],
    matched: Option<usize>,
    spaceless: bool,
    out: &mut [u8],
    used: usize,
) -> Option<usize>
    requires { MatchedStands dev.now matched × (used ≤ length out.old) }
    ensures { OfMatched dev.now matched (λ o. Appended (asked spaceless (of_matched o (λ m. m.driver))) out.old used result out.new) }
{
    match matched {
        Some(at) => insertion::put_text(out, used, device_view::driver_at(dev, at), spaceless),
        None => Some(used),
    }
}

// A value without the whitespace at its end.
fn put_trimmed(value: &[u8], spaceless: bool, out: &mut [u8], used: usize) -> Option<usize>
    requires { used ≤ length out.old }
    ensures { Appended (asked spaceless (trim value.now)) out.old used result out.new }
{
    let end = scan::trimmed_len(value);
    insertion::put_text(out, used, &value[0..end], spaceless)
}

// An attribute of the matched device.
fn put_parent_attribute(
    dev: &[u8],
    matched: Option<usize>,
    key: &[u8],
    spaceless: bool,
    out: &mut [u8],
    used: usize,
) -> Option<usize>
    requires { MatchedStands dev.now matched × (used ≤ length out.old) }
    ensures { OfMatched dev.now matched (λ o. Appended (asked spaceless (trim (or_empty (attr_at key.now o)))) out.old used result out.new) }
{
    match matched {
        Some(at) => put_trimmed(
            device_view::attribute_at(dev, at, key),
            spaceless,
            out,
            used,
        ),
        None => Some(used),
    }
}

// An attribute of the event device if it is present, else of the matched device.
fn put_attribute(
    dev: &[u8],
    event: usize,
    matched: Option<usize>,
    key: &[u8],
    spaceless: bool,
    out: &mut [u8],
    used: usize,
) -> Option<usize>
    requires { Standing dev.now event × MatchedStands dev.now matched × (used ≤ length out.old) }
    ensures { OfMember dev.now event (λ m. OfMatched dev.now matched (λ o. Appended (asked spaceless (trim (or_empty (first_of (attr_of key.now m) (attr_at key.now o))))) out.old used result out.new)) }
{
    match device_view::find_attribute_at(dev, event, key) {
        Some(found) => put_trimmed(
            &dev[found.start..found.start + found.len],
            spaceless,
            out,
            used,
        ),
        None => put_parent_attribute(dev, matched, key, spaceless, out, used),
    }
}

// A number of the device record's header in decimal.
fn put_decimal(
    dev: &[u8],
    at: usize,
    n: usize,
    spaceless: bool,
    out: &mut [u8],
    used: usize,
) -> Option<usize>
    requires { (n ≤ 20) × (at + n ≤ 56) × (7 ≤ length dev.now) × (used ≤ length out.old) }
    ensures { Appended (asked spaceless (decimal_text (number_at dev.now at n))) out.old used result out.new }
{
    let field = BitCursor { at }.take(dev, n);
    let d = pieces::decimal(field.value as u32);
    let digits = d.digits;
    let start = d.start;
    insertion::put_text(out, used, &digits[start..], spaceless)
}

// A property of the outcome record.
fn put_property(
    rec: &[u8],
    at: usize,
    n: usize,
    key: &[u8],
    spaceless: bool,
    out: &mut [u8],
    used: usize,
) -> Option<usize>
    requires { (at ≤ length rec.now) × Row Kind.Property n (drop at rec.now) × (used ≤ length out.old) }
    ensures { Appended (asked spaceless (part_of (find_in Kind.Property key.now at n (drop at rec.now)) rec.now)) out.old used result out.new }
{
    insertion::put_text(out, used, rows::value_of(rec, at, n, key), spaceless)
}

// What a piece of a template stands for.
fn put_piece(
    template: &[u8],
    p: Piece,
    dev: &[u8],
    rec: &[u8],
    from: Places,
    spaceless: bool,
    out: &mut [u8],
    used: usize,
) -> Option<usize>
    requires { PieceWithin p template.now × Sourced dev.now rec.now from × (used ≤ length out.old) }
    ensures { OfSource dev.now rec.now from (λ s. Appended (piece_text spaceless s (meaning p template.now)) out.old used result out.new) }
{
    let event = from.event;
    let matched = from.matched;
    match p {
        Piece::Written(b) => insertion::put_byte(out, used, b),
        Piece::Kernel => insertion::put_text(
            out,
            used,
            device_view::name_at(dev, event),
            spaceless,
        ),
        Piece::Number => put_number(dev, event, spaceless, out, used),
        Piece::Devpath => insertion::put_text(
            out,
            used,
            device_view::path_at(dev, event),
            spaceless,
        ),
        Piece::Id => put_id(dev, matched, spaceless, out, used),
        Piece::Driver => put_driver(dev, matched, spaceless, out, used),
        Piece::Major => put_decimal(dev, 12, 12, spaceless, out, used),
        Piece::Minor => put_decimal(dev, 24, 20, spaceless, out, used),
        Piece::Result => insertion::put_text(out, used, outcome_readers::output_of(rec), spaceless),
        Piece::Attr(start, len) => put_attribute(
            dev,
            event,
            matched,
            &template[start..start + len],
            spaceless,
            out,
            used,
        ),
        Piece::Env(start, len) => put_property(
            rec,
            from.properties,
            from.count,
            &template[start..start + len],
            spaceless,
            out,
            used,
        ),
        Piece::Dollar => insertion::put_byte(out, used, b'$'),
        Piece::Percent => insertion::put_byte(out, used, b'%'),
    }
}

// ---- the template

fn is_plain(b: u8) -> bool
    ensures { result ≡ is_plain b }
{
    b != b'$' && b != b'%'
}

// The end of the run of bytes that stand for themselves.
// By hand, since a run from past the template's end ends where it begins, so a range over the template would need that case beside it.
fn plain_end(template: &[u8], at: usize) -> usize
    ensures { RunEnd is_plain template.now at result }
{
    let mut i = at;
    while i < template.len() {
        if !is_plain(template[i]) {
            return i;
        }
        i += 1;
    }
    i
}

// The place in the template behind what was put, and where the text ends now.
#[derive(Clone, Copy)]
pub struct Turn {
    pub next: usize,
    pub used: usize,
}

// What stands at a place of a template: a run of bytes that stand for themselves, or one piece; or nothing, at its end. Or there is no room.
fn put_at(
    template: &[u8],
    i: usize,
    dev: &[u8],
    rec: &[u8],
    from: Places,
    spaceless: bool,
    out: &mut [u8],
    used: usize,
) -> Option<Option<Turn>>
    requires { (i ≤ length template.now) × (well_formed (drop i template.now) ≡ true) × Sourced dev.now rec.now from × (used ≤ length out.old) }
    ensures { GoesOn template.now i (length out.old) result × OfSource dev.now rec.now from (λ s. Turned spaceless s template.now i out.old used result out.new) }
{
    let end = plain_end(template, i);
    if i < end {
        let used = insertion::put_text(out, used, &template[i..end], false)?;
        return Some(Some(Turn { next: end, used }));
    }
    let found = match pieces::piece_at(template, i) {
        Ok(found) => found,
        Err(_) => return None,
    };
    let Some(read) = found else {
        return Some(None);
    };
    let put = put_piece(template, read.piece, dev, rec, from, spaceless, out, used)?;
    Some(Some(Turn {
        next: read.next,
        used: put,
    }))
}

// A template's text at the front of a buffer of 512 bytes; full is refusal 30.
pub fn substitute(
    template: &[u8],
    dev: &[u8],
    rec: &[u8],
    from: Places,
    spaceless: bool,
    out: &mut [u8],
) -> Option<usize>
    requires { (well_formed template.now ≡ true) × Sourced dev.now rec.now from × (length out.old ≡ most_substituted) }
    ensures { OfSource dev.now rec.now from (λ s. Filled (filled spaceless s template.now) out.old result out.new) }
{
    let mut i: usize = 0;
    let mut used: usize = 0;
    while let Some(turn) = put_at(template, i, dev, rec, from, spaceless, out, used)? {
        i = turn.next;
        used = turn.used;
    }
    Some(used)
}
