ghost use Rattle.std.specs.Prelude.{◌≤◌, IfErr};

use super::fields::{Expected, Fields};
use super::orders::{Base, Layers, Operator, Order, Setting, Source};
use aka::{ResyncMask, Sizes};
use driver::{End, Step};
use published::AtLine;
use std::alloc::Global;

// Lengths of buffers where a step names none.
const ROOM: usize = 256;

const AUTS_ROOM: usize = 64;

const SCRATCH: usize = 96;

// A line that cannot be read: its number from 1, and what was expected of it.
pub type Fault = AtLine<Expected>;

// What masks the number in an AUTS, by the value of its field.
// Here and at ENDS no FromStr in the crates aka and driver: these words are those of scripts.
const MASKS: [(&str, ResyncMask); 2] = [
    ("f5*", ResyncMask::F5Star),
    ("f5**", ResyncMask::F5StarStar),
];

// The ends, by the value of their field.
const ENDS: [(&str, End); 2] = [("network", End::Network), ("card", End::Card)];

fn sizes(fields: Fields<'_>) -> Result<Sizes, Expected> {
    fields.only(&["rand", "sqn", "ak", "mac", "res", "ck", "ik", "mask"])?;
    let sqn = fields.count("sqn")?;
    Ok(Sizes {
        rand: fields.count("rand")?,
        sqn,
        ak: fields.count_or("ak", sqn)?,
        mac: fields.count("mac")?,
        res: fields.count("res")?,
        ck: fields.count("ck")?,
        ik: fields.count("ik")?,
        resync: fields.one_of("mask", &MASKS)?,
    })
}

fn layers(fields: Fields<'_>) -> Result<Layers, Expected> {
    fields.only(&["a", "b", "first", "second"])?;
    Ok(Layers {
        mask_a: fields.bytes("a")?,
        mask_b: fields.bytes("b")?,
        first_key: fields.bytes("first")?,
        second_key: fields.bytes("second")?,
    })
}

// OP, and the name of the algorithm: the field name= as it stands, or MILENAGE2.0.
fn op(fields: Fields<'_>) -> Result<Operator, Expected> {
    fields.only(&["op", "name"])?;
    let name = fields.optional("name").unwrap_or("MILENAGE2.0");
    Ok(Operator::Op {
        op: fields.bytes("op")?,
        name: String::from_str(fields.heap, name)?,
    })
}

// A line that sets up the pair, if its first word is such.
fn setting(word: &str, fields: Fields<'_>) -> Result<Option<Setting>, Expected> {
    let found = match word {
        "layers" => Setting::Kernel(Base::Layers(layers(fields)?)),
        "sizes" => Setting::Sizes(sizes(fields)?),
        "op" => Setting::Operator(op(fields)?),
        "key" => Setting::Kernel(Base::Key(fields.only_bytes("key")?)),
        "opc" => Setting::Operator(Operator::Opc(fields.only_bytes("opc")?)),
        "constants" => Setting::Constants(fields.only_bytes("constants")?),
        "network" => Setting::NetworkNumber(fields.only_bytes("number")?),
        "card" => Setting::CardNumber(fields.only_bytes("number")?),
        _ => return Ok(None),
    };
    Ok(Some(found))
}

fn challenge(fields: Fields<'_>) -> Result<Step<Source>, Expected> {
    fields.only(&["rand", "amf", "room", "scratch"])?;
    Ok(Step::Challenge {
        rand: fields.bytes("rand")?,
        amf: fields.bytes("amf")?,
        room: fields.count_or("room", ROOM)?,
        scratch: fields.count_or("scratch", SCRATCH)?,
    })
}

fn receive(fields: Fields<'_>) -> Result<Step<Source>, Expected> {
    fields.only(&["rand", "autn", "room", "auts", "scratch"])?;
    Ok(Step::Receive {
        rand: fields.source("rand")?,
        autn: fields.source("autn")?,
        room: fields.count_or("room", ROOM)?,
        auts_room: fields.count_or("auts", AUTS_ROOM)?,
        scratch: fields.count_or("scratch", SCRATCH)?,
    })
}

fn trace(fields: Fields<'_>) -> Result<Step<Source>, Expected> {
    fields.only(&["end", "index", "rand", "size", "carried", "room", "scratch"])?;
    Ok(Step::Trace {
        end: fields.one_of("end", &ENDS)?,
        index: fields.count("index")?,
        rand: fields.source("rand")?,
        size: fields.count("size")?,
        carried: fields.bytes_or_none("carried")?,
        room: fields.count_or("room", ROOM)?,
        scratch: fields.count_or("scratch", SCRATCH)?,
    })
}

fn confirm(fields: Fields<'_>) -> Result<Step<Source>, Expected> {
    fields.only(&["ticket", "res"])?;
    Ok(Step::Confirm {
        serial: fields.ticket()?,
        res: fields.source("res")?,
    })
}

fn resync(fields: Fields<'_>) -> Result<Step<Source>, Expected> {
    fields.only(&["ticket", "auts", "scratch"])?;
    // Before the ticket: where both are wrong, this fault is told.
    let scratch = fields.count_or("scratch", SCRATCH)?;
    Ok(Step::Resync {
        serial: fields.ticket()?,
        auts: fields.source("auts")?,
        scratch,
    })
}

fn lapse(fields: Fields<'_>) -> Result<Step<Source>, Expected> {
    fields.only(&["ticket"])?;
    Ok(Step::Lapse {
        serial: fields.ticket()?,
    })
}

// A line that is a step, if its first word is such.
fn step(word: &str, fields: Fields<'_>) -> Result<Option<Step<Source>>, Expected> {
    let found = match word {
        "challenge" => challenge(fields)?,
        "receive" => receive(fields)?,
        "trace" => trace(fields)?,
        "confirm" => confirm(fields)?,
        "resync" => resync(fields)?,
        "lapse" => lapse(fields)?,
        _ => return Ok(None),
    };
    Ok(Some(found))
}

// What a line orders; nothing where it is empty or begins with #.
fn order(heap: Global, line: &str) -> Result<Option<Order>, Expected> {
    if line.is_empty() || line.starts_with('#') {
        return Ok(None);
    }
    let (word, words) = line.split_once(' ').unwrap_or((line, ""));
    let fields = Fields { heap, words };
    if let Some(found) = setting(word, fields)? {
        return Ok(Some(Order::Set(found)));
    }
    let found = step(word, fields)?.ok_or(Expected::Command)?;
    Ok(Some(Order::Do(found)))
}

// Reads a script: its orders in the order of their lines, or the first line that cannot be read.
pub fn parse(heap: Global, text: &str) -> Result<Vec<Order>, Fault>
    ensures { IfErr result (λ fault. 1 ≤ fault.line) }
{
    let mut orders = Vec::new(heap);
    // Not (1usize..).zip(text.lines()) as in the crate cases: it was tried, and that a fault's line is 1 or more stayed open.
    for (i, words) in text.lines().enumerate() {
        let line = i.saturating_add(1);
        let at = |fault| Fault { line, fault };
        if let Some(found) = order(heap, words).map_err(at)? {
            orders.push(found).map_err(|e| at(Expected::from(e)))?;
        }
    }
    Ok(orders)
}
