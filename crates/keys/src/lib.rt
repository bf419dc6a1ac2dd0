// The keys of a rule: the table of what each allows, and the key that a run of letters names.

#![tactic(auto)]

ghost use Rattle.std.specs.Prelude.{◌≡◌, ◌≤◌, ◌<◌, take};
ghost use Rattle.std.specs.Prelude.{Some};
ghost use Rattle.lists.specs.Lists.{nth};
ghost use Rattle.lists.specs.Bytes.{same_bytes};
ghost use Rattle.rules.specs.Key as rules;
ghost use Rattle.keys.specs.Table.{key_of, operator_of, allowed_of, row_of, found_of};
ghost use Rattle.keys.specs.Slots.{slot_of, IsPlace};

#[derive(Debug, Clone, Copy, PartialEq, Eq)]
pub enum Key {
    Action,
    Devpath,
    Kernel,
    Kernels,
    Subsystem,
    Subsystems,
    Driver,
    Drivers,
    Attr,
    Attrs,
    Env,
    Symlink,
    Tag,
    Owner,
    Group,
    Mode,
    Run,
    Label,
    Goto,
    Options,
    Program,
    Result,
}

// `==` `!=` `=` `+=` `-=` `:=`
#[derive(Debug, Clone, Copy, PartialEq, Eq)]
pub enum Operator {
    Equal,
    Unequal,
    Assign,
    Add,
    Remove,
    Final,
}

// The argument in braces that a key takes: none; one; or the type of a program, which may be absent.
#[derive(Debug, Clone, Copy, PartialEq, Eq)]
pub enum Takes {
    Nothing,
    One,
    RunType,
}

// ---- the table

// A set of operators, a bit for each.
#[derive(Debug, Clone, Copy, PartialEq, Eq)]
pub struct Operators {
    pub bits: u8,
}

impl Operators {
    pub fn allows(self, operator: Operator) -> bool
        ensures { result ≡ rules.allows (allowed_of self) (operator_of operator) }
    {
        (self.bits >> operator as u8) % 2 == 1
    }
}

const EQUAL: u8 = 1;

const UNEQUAL: u8 = 2;

const ASSIGN: u8 = 4;

const ADD: u8 = 8;

const REMOVE: u8 = 16;

const FINAL: u8 = 32;

const JUDGED: u8 = EQUAL + UNEQUAL;

const EVERY: u8 = JUDGED + ASSIGN + ADD + REMOVE + FINAL;

// The name is the first len bytes of name; it is repeated to fill them, since a row that ends in zeros is put on the stack in more pieces.
#[derive(Clone, Copy)]
pub struct Row {
    pub name: [u8; 12],
    pub len: u8,
    pub key: Key,
    pub takes: Takes,
    pub operators: Operators,
}

const ROWS: [Row; 22] = [
    Row {
        name: *b"ACTIONACTION",
        len: 6,
        key: Key::Action,
        takes: Takes::Nothing,
        operators: Operators { bits: JUDGED },
    },
    Row {
        name: *b"DEVPATHDEVPA",
        len: 7,
        key: Key::Devpath,
        takes: Takes::Nothing,
        operators: Operators { bits: JUDGED },
    },
    Row {
        name: *b"KERNELKERNEL",
        len: 6,
        key: Key::Kernel,
        takes: Takes::Nothing,
        operators: Operators { bits: JUDGED },
    },
    Row {
        name: *b"KERNELSKERNE",
        len: 7,
        key: Key::Kernels,
        takes: Takes::Nothing,
        operators: Operators { bits: JUDGED },
    },
    Row {
        name: *b"SUBSYSTEMSUB",
        len: 9,
        key: Key::Subsystem,
        takes: Takes::Nothing,
        operators: Operators { bits: JUDGED },
    },
    Row {
        name: *b"SUBSYSTEMSSU",
        len: 10,
        key: Key::Subsystems,
        takes: Takes::Nothing,
        operators: Operators { bits: JUDGED },
    },
    Row {
        name: *b"DRIVERDRIVER",
        len: 6,
        key: Key::Driver,
        takes: Takes::Nothing,
        operators: Operators { bits: JUDGED },
    },
    Row {
        name: *b"DRIVERSDRIVE",
        len: 7,
        key: Key::Drivers,
        takes: Takes::Nothing,
        operators: Operators { bits: JUDGED },
    },
    Row {
        name: *b"ATTRATTRATTR",
        len: 4,
        key: Key::Attr,
        takes: Takes::One,
        operators: Operators { bits: JUDGED },
    },
    Row {
        name: *b"ATTRSATTRSAT",
        len: 5,
        key: Key::Attrs,
        takes: Takes::One,
        operators: Operators { bits: JUDGED },
    },
    Row {
        name: *b"ENVENVENVENV",
        len: 3,
        key: Key::Env,
        takes: Takes::One,
        operators: Operators {
            bits: JUDGED + ASSIGN,
        },
    },
    Row {
        name: *b"SYMLINKSYMLI",
        len: 7,
        key: Key::Symlink,
        takes: Takes::Nothing,
        operators: Operators { bits: EVERY },
    },
    Row {
        name: *b"TAGTAGTAGTAG",
        len: 3,
        key: Key::Tag,
        takes: Takes::Nothing,
        operators: Operators { bits: EVERY },
    },
    Row {
        name: *b"OWNEROWNEROW",
        len: 5,
        key: Key::Owner,
        takes: Takes::Nothing,
        operators: Operators {
            bits: ASSIGN + FINAL,
        },
    },
    Row {
        name: *b"GROUPGROUPGR",
        len: 5,
        key: Key::Group,
        takes: Takes::Nothing,
        operators: Operators {
            bits: ASSIGN + FINAL,
        },
    },
    Row {
        name: *b"MODEMODEMODE",
        len: 4,
        key: Key::Mode,
        takes: Takes::Nothing,
        operators: Operators {
            bits: ASSIGN + FINAL,
        },
    },
    Row {
        name: *b"RUNRUNRUNRUN",
        len: 3,
        key: Key::Run,
        takes: Takes::RunType,
        operators: Operators {
            bits: ASSIGN + ADD + FINAL,
        },
    },
    Row {
        name: *b"LABELLABELLA",
        len: 5,
        key: Key::Label,
        takes: Takes::Nothing,
        operators: Operators { bits: ASSIGN },
    },
    Row {
        name: *b"GOTOGOTOGOTO",
        len: 4,
        key: Key::Goto,
        takes: Takes::Nothing,
        operators: Operators { bits: ASSIGN },
    },
    Row {
        name: *b"OPTIONSOPTIO",
        len: 7,
        key: Key::Options,
        takes: Takes::Nothing,
        operators: Operators { bits: ASSIGN + ADD },
    },
    Row {
        name: *b"PROGRAMPROGR",
        len: 7,
        key: Key::Program,
        takes: Takes::Nothing,
        operators: Operators {
            bits: JUDGED + ASSIGN + ADD + FINAL,
        },
    },
    Row {
        name: *b"RESULTRESULT",
        len: 6,
        key: Key::Result,
        takes: Takes::Nothing,
        operators: Operators { bits: JUDGED },
    },
];

pub fn row_at(k: usize) -> Row
    requires { k < 22 }
    ensures { (nth k rules.rows ≡ Some (row_of result)) × (result.len ≤ 10) }
{
    ROWS[k]
}

// ---- lookup

// The place of the one row whose name can have a slot, a number below 32 that differs for the names of the table.
const PLACES: [u8; 32] = [
    0, 0, 20, 10, 4, 8, 0, 0, 11, 14, 13, 0, 5, 9, 6, 0, 0, 12, 18, 16, 2, 1, 7, 19, 15, 17, 0, 21,
    3, 0, 0, 0,
];

fn slot(name: &[u8]) -> usize
    ensures { result ≡ slot_of name.now }
{
    let first = scan::byte_at(name, 0);
    let second = scan::byte_at(name, 1);
    (usize::from(first) + 5 * usize::from(second) + 8 * (name.len() % 4)) % 32
}

// The place of the one row that a name can have.
fn place(name: &[u8]) -> usize
    ensures { (result < 22) × IsPlace name.now result }
{
    let s = slot(name);
    usize::from(PLACES[s])
}

// Whether a run of letters is the first len bytes of a row's name.
fn same_name(run: &[u8], name: [u8; 12], len: usize) -> bool
    requires { len ≤ 12 }
    ensures { result ≡ same_bytes (take len name) run.now }
{
    scan::same_short(&name[..len], run)
}

// The row of a key, by its name.
pub fn find_key(name: &[u8]) -> Option<Row>
    ensures { found_of result ≡ rules.row_of name.now }
{
    let row = row_at(place(name));
    if same_name(name, row.name, usize::from(row.len)) {
        Some(row)
    } else {
        None
    }
}
