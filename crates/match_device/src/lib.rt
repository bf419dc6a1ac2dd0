// Whether a match key holds of what the device record says: of one device of its chain, and of its action.

#![tactic(auto)]

ghost use Rattle.std.specs.Prelude.{◌≡◌};
ghost use Rattle.pattern.specs.Pattern.{matches};
ghost use Rattle.device.specs.Device.{action_of, attr_of};
ghost use Rattle.keys.specs.Table.{operator_of};
ghost use Rattle.engine.specs.Match.{judged};
ghost use Rattle.glob.specs.Plain.{PlainIf};
ghost use Rattle.device_lookup.specs.Lookup.{Sound, Standing, OfDevice, OfMember};
ghost use Rattle.match_device.specs.Parts.{driver_holds, attribute_holds, part_holds};

use bits::BitCursor;
use keys::Operator;

// What a match key can ask of one device. An attribute is the one that the key's argument names.
#[derive(Clone, Copy)]
pub enum Part {
    Path,
    Name,
    Subsystem,
    Driver,
    Attribute,
}

// A driver of no bytes is absent.
fn driver_holds(operator: Operator, pattern: &[u8], plain: bool, driver: &[u8]) -> bool
    requires { PlainIf plain pattern.now }
    ensures { result ≡ driver_holds (operator_of operator) pattern.now driver.now }
{
    if driver.is_empty() {
        return match_values::judge(operator, false);
    }
    match_values::value_holds(operator, pattern, plain, driver)
}

// An attribute of no bytes is present.
fn attribute_holds(
    operator: Operator,
    argument: &[u8],
    pattern: &[u8],
    plain: bool,
    dev: &[u8],
    at: usize,
) -> bool
    requires { Standing dev.now at × PlainIf plain pattern.now }
    ensures { OfMember dev.now at (λ m. result ≡ attribute_holds (operator_of operator) pattern.now (attr_of argument.now m)) }
{
    match device_view::find_attribute_at(dev, at, argument) {
        Some(found) => match_values::attribute_holds(
            operator,
            pattern,
            plain,
            &dev[found.start..found.start + found.len],
        ),
        None => match_values::judge(operator, false),
    }
}

// Of the device that begins at a place.
pub fn part_holds(
    part: Part,
    operator: Operator,
    argument: &[u8],
    pattern: &[u8],
    plain: bool,
    dev: &[u8],
    at: usize,
) -> bool
    requires { Standing dev.now at × PlainIf plain pattern.now }
    ensures { OfMember dev.now at (λ m. result ≡ part_holds part (operator_of operator) argument.now pattern.now m) }
{
    match part {
        Part::Path => match_values::value_holds(
            operator,
            pattern,
            plain,
            device_view::path_at(dev, at),
        ),
        Part::Name => match_values::value_holds(
            operator,
            pattern,
            plain,
            device_view::name_at(dev, at),
        ),
        Part::Subsystem => match_values::value_holds(
            operator,
            pattern,
            plain,
            device_view::subsystem_at(dev, at),
        ),
        Part::Driver => driver_holds(operator, pattern, plain, device_view::driver_at(dev, at)),
        Part::Attribute => attribute_holds(operator, argument, pattern, plain, dev, at),
    }
}

pub fn action_holds(operator: Operator, pattern: &[u8], plain: bool, dev: &[u8]) -> bool
    requires { Sound dev.now × PlainIf plain pattern.now }
    ensures { OfDevice dev.now (λ d. result ≡ judged (operator_of operator) (matches pattern.now (action_of d))) }
{
    let action = BitCursor { at: 8 }.take(dev, 3);
    match_values::action_holds(operator, pattern, plain, action.value)
}
