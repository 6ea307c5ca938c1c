//! Cycles with so much work that up to four workers share them.

use std::alloc::Global;
use std::test::Fail;

/// The header's lines of a device with the longest period, but for the mode.
pub const LONGEST_PERIOD: &str = "\
jackd 1
rate 48000
period 4096
capture 1
playback 1 16
";

// As many as make the work of a cycle enough for four workers, and not the more than 30 that 512 connections allow.
const CROWD: u32 = 14;

fn add_client(alloc: Global, calls: &mut String, number: u32) -> Result<(), Fail> {
    let opened = format!(in alloc; "do open crowd{number} pass\ndo activate crowd{number}\n")?;
    calls.push_str(opened.as_str())?;
    for port in 1..17 {
        let heard = format!(in alloc;
            "do register crowd{number}:{port} in audio\ndo connect system:capture_1 crowd{number}:{port}\n"
        )?;
        calls.push_str(heard.as_str())?;
    }
    Ok(())
}

/// Opens clients that nothing connects with each other, each of which hears the capture on 16 ports.
pub fn crowd(alloc: Global) -> Result<String, Fail> {
    let mut calls = String::new(alloc);
    for number in 0..CROWD {
        add_client(alloc, &mut calls, number)?;
    }
    Ok(calls)
}
