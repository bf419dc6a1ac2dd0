// A lent set of devices with their wanted links where it lies (document 02, Item 14): where the two stand, and whether all devices are sound.

#![tactic(auto)]

ghost use Rattle.std.specs.Prelude.{◌≡◌, ◌≤◌, length};
ghost use Rattle.lists.specs.Lists.{is_some};
ghost use Rattle.plan.specs.Operations.{one_wish, decode_wishes};
ghost use Rattle.set_rows.specs.Places.{skip};
ghost use Rattle.plan_rows.specs.Places.{WishFrom, WishIs, WishReads};
ghost use Rattle.plan_rows.specs.Namings.{JudgedIs};

use refusals::{Refusal, SetRefusal};
use rows::Kind;
use set_rows::{Entry, Part};

// ---- a device and its wanted link

#[derive(Clone, Copy)]
pub struct WishPlace {
    pub device: Part,
    pub link: Part,
}

// The two that are known to stand at a place.
pub fn wish_in(set: &[u8], p: usize) -> WishPlace
    requires { WishFrom set.now p }
    ensures { WishIs set.now p result }
{
    let device = set_rows::long_in(set, p);
    let link = rows::parts_at(set, device.end, Kind::Text);
    WishPlace {
        device,
        link: Part {
            start: link.name,
            end: link.end,
        },
    }
}

// The two at any place, if the set reaches so far.
fn wish_at(set: &[u8], p: usize) -> Option<WishPlace>
    requires { p ≤ length set.now }
    ensures { WishReads set.now p result }
{
    let device = set_rows::long_at(set, p)?;
    let link = rows::entry_at(set, device.end, Kind::Text)?;
    Some(WishPlace {
        device,
        link: Part {
            start: link.name,
            end: link.end,
        },
    })
}

// ---- the set

const MOST_WISHES: usize = 16;

impl Entry for WishPlace {
    ghost one = { λ bs. skip (one_wish bs) };

    fn end_at(set: &[u8], p: usize) -> Option<usize> {
        Some(wish_at(set, p)?.link.end)
    }
}

// The bytes are a set of 1 to 16 such pairs (else refusal 7).
fn check_wishes(set: &[u8]) -> bool
    ensures { result ≡ is_some (decode_wishes set.now) }
{
    set_rows::is_set::<WishPlace>(set, 1, MOST_WISHES)
}

// The first fault of a set, with the position that it has.
pub fn judge(set: &[u8]) -> Result<(), SetRefusal>
    ensures { JudgedIs set.now result }
{
    if !check_wishes(set) {
        return Err(SetRefusal {
            refusal: Refusal::SetBad,
            position: 0,
            line: 0,
        });
    }
    let mut p = 1;
    for i in 0..set_rows::count_of(set) {
        let place = wish_in(set, p);
        if !device_check::check(set_rows::bytes_of(set, place.device)) {
            return Err(SetRefusal {
                refusal: Refusal::DeviceBad,
                position: i + 1,
                line: 0,
            });
        }
        p = place.link.end;
    }
    Ok(())
}
