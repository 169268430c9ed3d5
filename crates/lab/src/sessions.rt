use super::follower::Follower;
use aka::Sizes;
use anyhow::anyhow;
use block::Refusal;
use driver::{Noted, Step, Stopped, run_one_key, run_pair};
use kernel::{Chained, Kernel, Whitened};
use milenage::{derive_opc, standard_constants};
use rijndael::Rijndael;
use script::{Base, Layers, Operator, Order, Setting, Source, parse};
use std::alloc::{AllocError, Global};
use std::mem;

// A whitened kernel over a chain of two Rijndael kernels.
type Layered = Whitened<Chained<Rijndael, Rijndael>>;

// The OPc that is set, over a kernel.
fn opc_of<K: Kernel>(heap: Global, operator: &Operator, kernel: &K) -> Result<Vec<u8>, Stopped> {
    match operator {
        Operator::Opc(opc) => Ok(opc.clone()?),
        Operator::Op { op, name } => {
            let opc = derive_opc(kernel, op, name.as_bytes(), &mut [0; 96])?;
            Ok(opc.to_vec(heap)?)
        }
    }
}

// What a script has set so far, bytes of any length: one that is wrong is seen when it is refused.
#[derive(Drop)]
struct PairSetup {
    base: Base,
    operator: Operator,
    constants: Vec<u8>,
    sizes: Sizes,
    network_number: Vec<u8>,
    card_number: Vec<u8>,
}

impl PairSetup {
    // Nothing set but the standard's constants and sizes in common use.
    fn new(heap: Global) -> Result<PairSetup, AllocError> {
        Ok(PairSetup {
            base: Base::Key(Vec::new(heap)),
            operator: Operator::Opc(Vec::new(heap)),
            constants: standard_constants().to_vec(heap)?,
            sizes: Sizes {
                res: 8,
                ..Sizes::SMALLEST
            },
            network_number: [0; 6].to_vec(heap)?,
            card_number: [0; 6].to_vec(heap)?,
        })
    }

    fn set(&mut self, setting: Setting) {
        match setting {
            Setting::Kernel(base) => self.base = base,
            Setting::Operator(operator) => self.operator = operator,
            Setting::Constants(constants) => self.constants = constants,
            Setting::Sizes(sizes) => self.sizes = sizes,
            Setting::NetworkNumber(number) => self.network_number = number,
            Setting::CardNumber(number) => self.card_number = number,
        }
    }

    // Opens a pair as set, and lets the follower drive it.
    fn drive(&self, heap: Global, follower: &mut Follower) -> Result<Vec<Noted>, Stopped> {
        match &self.base {
            // two calls, and not `run_pair` for both: the laws of `run_one_key` need no agreement of kernels, so they hold of the log that is printed (docs/PROMISES.md names this call)
            Base::Key(key) => {
                let opc = opc_of(heap, &self.operator, &Rijndael::new(key)?)?;
                run_one_key(
                    heap,
                    follower,
                    u64::MAX,
                    key,
                    &opc,
                    &self.constants,
                    self.sizes,
                    &self.network_number,
                    &self.card_number,
                )
            }
            Base::Layers(layers) => {
                let network = layered(layers)?;
                let card = layered(layers)?;
                let opc = opc_of(heap, &self.operator, &network)?;
                run_pair(
                    heap,
                    follower,
                    u64::MAX,
                    network,
                    card,
                    &opc,
                    &self.constants,
                    self.sizes,
                    &self.network_number,
                    &self.card_number,
                )
            }
        }
    }
}

// The kernel that layers make.
fn layered(layers: &Layers) -> Result<Layered, Refusal> {
    let first = Rijndael::new(&layers.first_key)?;
    let second = Rijndael::new(&layers.second_key)?;
    Whitened::new(Chained::new(first, second), &layers.mask_a, &layers.mask_b)
}

// Runs the steps, if there are any, at a pair, and prints the log.
fn run_session(
    rt: &HostRuntime,
    setup: &PairSetup,
    steps: Vec<Step<Source>>,
) -> anyhow::Result<()> {
    if steps.is_empty() {
        return Ok(());
    }
    println!(rt; "=== session ===")?;
    let mut follower = Follower::new(rt.alloc(), steps, setup.sizes);
    match setup.drive(rt.alloc(), &mut follower) {
        Err(stopped @ Stopped::Refused(_)) => println!(rt; "{stopped}")?,
        ran => {
            for entry in &ran? {
                println!(rt; "{entry}")?;
            }
        }
    }
    Ok(())
}

// Runs the sessions of a script: settings, then steps; a setting after steps begins another pair.
fn run_orders(rt: &HostRuntime, orders: Vec<Order>) -> anyhow::Result<()> {
    let heap = rt.alloc();
    let mut setup = PairSetup::new(heap)?;
    let mut steps = Vec::new(heap);
    for order in orders {
        match order {
            Order::Set(setting) => {
                run_session(rt, &setup, mem::try_take(&mut steps)?)?;
                setup.set(setting);
            }
            Order::Do(step) => steps.push(step)?,
        }
    }
    run_session(rt, &setup, steps)
}

// Reads a script whole, and runs it only where every line can be read.
pub fn run(rt: &HostRuntime, text: &str) -> anyhow::Result<()> {
    match parse(rt.alloc(), text) {
        Ok(orders) => run_orders(rt, orders),
        Err(fault) => {
            println!(rt; "{fault}")?;
            Err(anyhow!("the script cannot be read"))
        }
    }
}
