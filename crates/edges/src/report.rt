use anyhow::anyhow;
use block::Refusal;

// A case of a call: its name in print, what is asked, and the refusal that it should get, if any.
pub struct Case<C> {
    pub case: &'static str,
    pub asked: C,
    pub wanted: Option<Refusal>,
}

const BYTES: [u8; 256] = [7; 256];

// Some bytes, as many as wanted up to 256.
pub fn part(n: usize) -> &'static [u8] {
    &BYTES[0..n.min(256)]
}

// The first bytes, as many as wanted, or all where there are fewer.
pub fn front(bytes: &[u8], n: usize) -> &[u8] {
    &bytes[..n.min(bytes.len())]
}

// The first bytes, as many as wanted, or all where there are fewer, to be written.
pub fn front_mut(bytes: &mut [u8], n: usize) -> &mut [u8] {
    let n = n.min(bytes.len());
    &mut bytes[..n]
}

// How many cases came out as they should, and how many did not. Each is printed as it comes.
pub struct Report<'a> {
    rt: &'a HostRuntime,
    right: u32,
    wrong: u32,
}

// What stands for a refusal in print: its number, or 0 where the call was not refused.
fn number(refusal: Option<Refusal>) -> u8 {
    refusal.map_or(0, Refusal::number)
}

impl<'a> Report<'a> {
    pub fn new(rt: &'a HostRuntime) -> Report<'a> {
        Report {
            rt,
            right: 0,
            wrong: 0,
        }
    }

    // Notes one case: the refusal that it should get, and the one that it got.
    pub fn expect(
        &mut self,
        call: &str,
        case: &str,
        wanted: Option<Refusal>,
        got: Option<Refusal>,
    ) -> anyhow::Result<()> {
        let rt = self.rt;
        let told = number(got);
        if wanted == got {
            self.right = self.right.saturating_add(1);
            println!(rt; "{call:<10} {case:<44} {told:>2}")?;
        } else {
            self.wrong = self.wrong.saturating_add(1);
            let right = number(wanted);
            println!(rt; "{call:<10} {case:<44} {told:>2}, should be {right}")?;
        }
        Ok(())
    }

    // Notes each case of a call, by what an attempt gets.
    pub fn expect_each<C, F: Fn(&C) -> anyhow::Result<Option<Refusal>>>(
        &mut self,
        call: &str,
        cases: &[Case<C>],
        attempt: F,
    ) -> anyhow::Result<()>
        requires { F.IsAlwaysCallable attempt }
    {
        for c in cases {
            self.expect(call, c.case, c.wanted, attempt(&c.asked)?)?;
        }
        Ok(())
    }

    // The total; an error where a case came out wrong.
    pub fn close(self) -> anyhow::Result<()> {
        let Report { rt, right, wrong } = self;
        println!(rt; "edge cases: {right} right, {wrong} wrong")?;
        if wrong > 0 {
            return Err(anyhow!("an edge case came out wrong"));
        }
        Ok(())
    }
}
