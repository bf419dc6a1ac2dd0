// The numbers in a device record's header and in front of each device, by the bit cursor.

#![tactic(auto)]

ghost use Rattle.std.specs.Prelude.{◌≡◌, ◌+◌, ◌≤◌, length};
ghost use Rattle.lists.specs.Sizes.{most_device};
ghost use Rattle.device_head.specs.Read.{HeadRead, LensRead, path_len, path_in};

use bits::BitCursor;

// 4 bits of edition, 4 of chain length (less one), 3 of action, 1 that tells of a node, 12 of major, 20 of minor number, 6 of property count; 6 bits unused.
#[derive(Clone, Copy)]
pub struct Head {
    pub edition: usize,
    pub above: usize,
    pub action: usize,
    pub node: usize,
    pub major: usize,
    pub minor: usize,
    pub properties: usize,
    pub unused: usize,
}

// 9 bits of path length, 6 of subsystem length, 6 of driver length, 5 of attribute count; 6 bits unused.
#[derive(Drop)]
pub struct Lens {
    pub path: usize,
    pub subsystem: usize,
    pub driver: usize,
    pub attributes: usize,
    pub unused: usize,
}

pub fn read_head(rec: &[u8]) -> Head
    requires { 7 ≤ length rec.now }
    ensures { HeadRead rec.now result }
{
    let edition = BitCursor { at: 0 }.take(rec, 4);
    let above = edition.next.take(rec, 4);
    let action = above.next.take(rec, 3);
    let node = action.next.take(rec, 1);
    let major = node.next.take(rec, 12);
    let minor = major.next.take(rec, 20);
    let properties = minor.next.take(rec, 6);
    let unused = properties.next.take(rec, 6);
    Head {
        edition: edition.value,
        above: above.value,
        action: action.value,
        node: node.value,
        major: major.value,
        minor: minor.value,
        properties: properties.value,
        unused: unused.value,
    }
}

// The numbers in front of the device that begins at a place.
pub fn read_lens(rec: &[u8], at: usize) -> Lens
    requires { (at + 4 ≤ length rec.now) × (length rec.now ≤ most_device) }
    ensures { LensRead rec.now at result }
{
    let path = BitCursor { at: 8 * at }.take(rec, 9);
    let subsystem = path.next.take(rec, 6);
    let driver = subsystem.next.take(rec, 6);
    let attributes = driver.next.take(rec, 5);
    let unused = attributes.next.take(rec, 6);
    Lens {
        path: path.value,
        subsystem: subsystem.value,
        driver: driver.value,
        attributes: attributes.value,
        unused: unused.value,
    }
}

// The path of the device that begins at a place.
pub fn path_at(rec: &[u8], at: usize) -> &[u8]
    requires { (at + 4 + path_len rec.now at ≤ length rec.now) × (length rec.now ≤ most_device) }
    ensures { result.now ≡ path_in rec.now at }
{
    let path = BitCursor { at: 8 * at }.take(rec, 9);
    let start = at + 4;
    let end = start + path.value;
    &rec[start..end]
}
