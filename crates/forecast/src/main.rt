//! Forecast: reads a table of slots and costs from standard input, and prints in which order the slots would leave a pile,
//! and with what credit. `forecasts` has all that decides; this program reads and prints.
#![tactic(auto)]

use anyhow::anyhow;
use forecasts::foretell;
use std::io::Read;

fn main(rt: HostRuntime) -> anyhow::Result<()> {
    let heap = rt.alloc();
    let mut text = Vec::new(heap);
    rt.stdin().read_to_end(&mut text)?;
    let forecast = match foretell(heap, text.as_slice()) {
        Ok(forecast) => forecast,
        Err(error) => {
            println!(rt; "{error}")?;
            return Err(anyhow!("no forecast"));
        }
    };
    println!(rt; "slot credit")?;
    for leaver in forecast.leavers.as_slice() {
        println!(rt; "{} {}", leaver.slot, leaver.credit)?;
    }
    if !forecast.agrees {
        println!(rt; "the flat order disagrees")?;
        return Err(anyhow!("the orders disagree"));
    }
    println!(rt; "the flat order agrees")?;
    Ok(())
}

#[cfg(test)]
mod tests {
    use forecasts::{ForecastError, Reason, read_rows};
    use std::test::Fail;

    // The first line that is refused, and why.
    #[test]
    fn refusals(rt: HostRuntime) -> Result<(), Fail> {
        let texts: [(&str, usize, Reason); 9] = [
            ("", 1, Reason::Names),
            ("slot cost", 1, Reason::Names),
            ("slot cost\n5\n", 2, Reason::Values),
            ("slot cost\n5 6 7\n", 2, Reason::Values),
            ("slot cost\n1024 1\n1024 x\n", 2, Reason::Slot),
            ("slot cost\n1023 1\n01023 2\n", 3, Reason::Twice),
            ("slot cost\n1 65280\n2 65281\n", 3, Reason::Cost),
            ("slot cost\n1 0\n", 2, Reason::Cost),
            ("slot cost\n1 1\n2 2", 3, Reason::Unended),
        ];
        for (text, line, reason) in texts {
            match read_rows(rt.alloc(), text.as_bytes()) {
                Err(ForecastError::Fault(fault)) => {
                    assert_eq!(rt; fault.line, line);
                    assert_eq!(rt; fault.reason, reason);
                }
                _ => return Err(Fail::new("not refused")),
            }
        }
        Ok(())
    }
}
