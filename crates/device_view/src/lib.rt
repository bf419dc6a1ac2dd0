// A view of one device of a record: the record as it is lent, and the offset at which the device begins. What the device says is read in place.
// Each method takes the view apart and leaves the work to a function on the record and the offset.

#![tactic(auto)]

ghost use Rattle.std.specs.Prelude.{◌≡◌, ◌-◌, ◌≤◌, length, get_or};
ghost use Rattle.lists.specs.Sizes.{most_chain};
ghost use Rattle.entries.specs.Entry.{or_empty};
ghost use Rattle.device.specs.Device.{name_of, attr_of};
ghost use Rattle.device_lookup.specs.Lookup.{Sound, Standing, OfDevice, OfMember, Says, Within, Chained};
ghost use Rattle.device_view.specs.View.{OfPlace, HasParent, ParentAt};

use device_lookup::{Chain, Span};

#[derive(Drop)]
pub struct DeviceView<'a> {
    pub rec: &'a [u8],
    pub at: usize,
}

// ---- the next device of the chain, by offsets

// Whether the record goes on behind the device that begins at an offset.
fn goes_on(rec: &[u8], at: usize) -> bool
    requires { Standing rec.now at }
    ensures { HasParent rec.now at result }
{
    device_lookup::member_end(rec, at) < rec.len()
}

// Where the device behind it begins.
fn next_start(rec: &[u8], at: usize) -> usize
    requires { Standing rec.now at }
    ensures { ParentAt rec.now at result }
{
    device_lookup::member_end(rec, at)
}

// ---- the view

impl<'a> DeviceView<'a> {
    pub fn new(rec: &'a [u8], at: usize) -> DeviceView<'a>
        ensures { (result.rec ≡ rec.entry) × (result.at ≡ at) }
    {
        DeviceView { rec, at }
    }

    pub fn path(self) -> &'a [u8]
        requires { Standing self.rec.now self.at }
        ensures { OfMember self.entry.rec.now self.entry.at (λ m. result.now ≡ m.path) }
    {
        device_lookup::path(self.rec, self.at)
    }

    // The last component of its path.
    pub fn name(self) -> &'a [u8]
        requires { Standing self.rec.now self.at }
        ensures { OfMember self.entry.rec.now self.entry.at (λ m. result.now ≡ name_of m) }
    {
        device_lookup::name(self.rec, self.at)
    }

    pub fn subsystem(self) -> &'a [u8]
        requires { Standing self.rec.now self.at }
        ensures { OfMember self.entry.rec.now self.entry.at (λ m. result.now ≡ m.subsystem) }
    {
        device_lookup::subsystem(self.rec, self.at)
    }

    pub fn driver(self) -> &'a [u8]
        requires { Standing self.rec.now self.at }
        ensures { OfMember self.entry.rec.now self.entry.at (λ m. result.now ≡ m.driver) }
    {
        device_lookup::driver(self.rec, self.at)
    }

    // Where the value of an attribute stands; absent and empty stay apart.
    pub fn find_attribute<'b>(self, key: &'b [u8]) -> Option<Span>
        requires { Standing self.rec.now self.at }
        ensures { OfMember self.entry.rec.now self.entry.at (λ m. Says self.entry.rec.now result (attr_of key.now m)) × Within result (length self.entry.rec.now) }
    {
        device_lookup::find_attribute(self.rec, self.at, key)
    }

    // The same as a part of the record; empty where it is missing.
    pub fn attribute<'b>(self, key: &'b [u8]) -> &'a [u8]
        requires { Standing self.rec.now self.at }
        ensures { OfMember self.entry.rec.now self.entry.at (λ m. result.now ≡ or_empty (attr_of key.now m)) }
    {
        device_lookup::attribute(self.rec, self.at, key)
    }

    pub fn has_parent(self) -> bool
        requires { Standing self.rec.now self.at }
        ensures { HasParent self.entry.rec.now self.entry.at result }
    {
        goes_on(self.rec, self.at)
    }

    // The view of the parent, for a device that has one.
    pub fn parent(self) -> DeviceView<'a>
        requires { Standing self.rec.now self.at }
        ensures { (result.rec ≡ self.entry.rec) × ParentAt self.entry.rec.now self.entry.at result.at }
    {
        DeviceView {
            rec: self.rec,
            at: next_start(self.rec, self.at),
        }
    }
}

// ---- for callers that have a record and an offset or a place: each makes a view and reads it

pub fn path_at(rec: &[u8], at: usize) -> &[u8]
    requires { Standing rec.now at }
    ensures { OfMember rec.now at (λ m. result.now ≡ m.path) }
{
    DeviceView::new(rec, at).path()
}

pub fn name_at(rec: &[u8], at: usize) -> &[u8]
    requires { Standing rec.now at }
    ensures { OfMember rec.now at (λ m. result.now ≡ name_of m) }
{
    DeviceView::new(rec, at).name()
}

pub fn subsystem_at(rec: &[u8], at: usize) -> &[u8]
    requires { Standing rec.now at }
    ensures { OfMember rec.now at (λ m. result.now ≡ m.subsystem) }
{
    DeviceView::new(rec, at).subsystem()
}

pub fn driver_at(rec: &[u8], at: usize) -> &[u8]
    requires { Standing rec.now at }
    ensures { OfMember rec.now at (λ m. result.now ≡ m.driver) }
{
    DeviceView::new(rec, at).driver()
}

pub fn find_attribute_at<'a, 'b>(rec: &'a [u8], at: usize, key: &'b [u8]) -> Option<Span>
    requires { Standing rec.now at }
    ensures { OfMember rec.now at (λ m. Says rec.now result (attr_of key.now m)) × Within result (length rec.now) }
{
    DeviceView::new(rec, at).find_attribute(key)
}

pub fn attribute_at<'a, 'b>(rec: &'a [u8], at: usize, key: &'b [u8]) -> &'a [u8]
    requires { Standing rec.now at }
    ensures { OfMember rec.now at (λ m. result.now ≡ or_empty (attr_of key.now m)) }
{
    DeviceView::new(rec, at).attribute(key)
}

pub fn has_parent_at(rec: &[u8], at: usize) -> bool
    requires { Standing rec.now at }
    ensures { HasParent rec.now at result }
{
    DeviceView::new(rec, at).has_parent()
}

// Where the parent begins, for a device that has one.
pub fn parent_at(rec: &[u8], at: usize) -> usize
    requires { Standing rec.now at }
    ensures { ParentAt rec.now at result }
{
    DeviceView::new(rec, at).parent().at
}

// Where the device at a place of the chain begins; the event device has place 1.
fn start_of(chain: Chain, place: usize) -> usize
    requires { (1 ≤ place) × (place ≤ most_chain) }
    ensures { result ≡ get_or chain.at (place - 1) 0 }
{
    let at = chain.at;
    at[place - 1]
}

// An attribute of the device at a place of the chain.
pub fn attribute_of<'a, 'b>(rec: &'a [u8], chain: Chain, place: usize, key: &'b [u8]) -> &'a [u8]
    requires { Sound rec.now × OfDevice rec.now (λ d. Chained d chain) × (1 ≤ place) × (place ≤ chain.len) }
    ensures { OfPlace rec.now place (λ m. result.now ≡ or_empty (attr_of key.now m)) }
{
    attribute_at(rec, start_of(chain, place), key)
}
