// SYMLINK: the substituted text split into names, each cleaned, judged (31) and added or removed (32).

#![tactic(auto)]

ghost use Rattle.std.specs.Prelude.{◌≡◌, true, ℕ, ◌≤◌, length};
ghost use Rattle.lists.specs.Bytes.{clean};
ghost use Rattle.template.specs.Template.{well_formed};
ghost use Rattle.keys.specs.Table.{operator_of};
ghost use Rattle.outcome_target.specs.Held.{Holds};
ghost use Rattle.records.specs.Records.{Ready, Changes};
ghost use Rattle.engine.specs.Assign.{is_as_is, names_in};
ghost use Rattle.link_names.specs.Names.{names};
ghost use Rattle.assign_env.specs.Env.{escape_of};
ghost use Rattle.assign_links.specs.Links.{one_link, the_links, all_links, LinksAssigned};

use assign_env::Escape;
use assign_operators::{begin, finish};
use device_lookup::Chain;
use keys::Operator;
use outcome_fields::Closable;
use outcome_target::{Layout, Section, Texts};
use refusals::Refusal;

// ---- one name after the other

fn change_link(
    t: &mut [u8],
    layout: Layout,
    operator: Operator,
    name: &[u8],
) -> Result<Layout, Refusal>
    requires { Holds t.old layout × (clean name.now ≡ true) }
    ensures { Changes (one_link (operator_of operator) name.now) t.old layout t.new result }
{
    if !content::ok_name(name) {
        return Err(Refusal::LinkBad);
    }
    assign_lists::change_entry(t, layout, Texts::Links, operator, name).ok_or(Refusal::ListFull)
}

fn change_links(
    t: &mut [u8],
    layout: Layout,
    operator: Operator,
    text: &[u8],
) -> Result<Layout, Refusal>
    requires { Holds t.old layout × (clean text.now ≡ true) }
    ensures { Changes (the_links (operator_of operator) (names text.now)) t.old layout t.new result }
{
    let mut left = layout;
    let mut at: usize = 0;
    while let Some(name) = link_names::name_from(text, at) {
        left = change_link(t, left, operator, &text[name.start..name.end])?;
        at = name.end;
    }
    Ok(left)
}

// ---- the assignment

fn link_text(
    t: &mut [u8],
    layout: Layout,
    operator: Operator,
    text: &[u8],
) -> Result<Layout, Refusal>
    requires { Holds t.old layout × (clean text.now ≡ true) }
    ensures { Changes (all_links (operator_of operator) (names text.now)) t.old layout t.new result }
{
    let begun = begin(t, layout, Section::Links, operator);
    let left = change_links(t, begun, operator, text)?;
    finish(t, Closable::Links, operator);
    Ok(left)
}

fn is_as_is(escape: Escape) -> bool
    ensures { result ≡ is_as_is (escape_of escape) }
{
    matches!(escape, Escape::AsIs)
}

// The names of a text as the setting asks.
fn clean_names(x: &mut [u8], escape: Escape)
    ensures { (names x.new ≡ names_in (escape_of escape) x.old) × (clean x.old ≡ true → clean x.new ≡ true) × (length x.new ≡ length x.old) }
{
    match escape {
        Escape::AsIs => {}
        Escape::Unset => link_names::clean(x, true),
        Escape::Replaced => link_names::clean(x, true),
    }
}

pub fn assign_links(
    t: &mut [u8],
    layout: Layout,
    dev: &[u8],
    chain: Chain,
    place: usize,
    operator: Operator,
    escape: Escape,
    value: &[u8],
) -> Result<Layout, Refusal>
    requires { Ready dev.now chain t.old layout × (place ≤ chain.len) × (well_formed value.now ≡ true) × (clean value.now ≡ true) }
    ensures { LinksAssigned (operator_of operator) (escape_of escape) value.now dev.now chain place t.old layout t.new result }
{
    let mut out = [0u8; 512];
    let spaceless = !is_as_is(escape);
    let k = filling::fill(value, dev, chain, place, t, layout, spaceless, &mut out).ok_or(
        Refusal::SubstitutionLong,
    )?;
    clean_names(&mut out[..k], escape);
    link_text(t, layout, operator, &out[..k])
}
