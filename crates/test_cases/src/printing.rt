//! What is printed.
use std::io::Write;
use yl_devices::RunFault;

/// Prints a text.
pub fn write(rt: &HostRuntime, text: &[u8]) -> Result<(), RunFault> {
    let mut out = rt.stdout();
    match out.write_all(text) {
        Ok(()) => Ok(()),
        Err(_) => Err(RunFault::Write),
    }
}

/// Prints a text and a line feed.
pub fn say(rt: &HostRuntime, text: &str) -> Result<(), RunFault> {
    match println!(rt; "{text}") {
        Ok(()) => Ok(()),
        Err(_) => Err(RunFault::Write),
    }
}

/// What is said of how often memory was asked for, which is to be answered as it has to be, and so often at least.
pub fn told_growths(count: Option<u64>, least: u64) -> &'static str {
    match count {
        None => "is answered otherwise where memory is refused\n",
        Some(count) if count < least => "asks for memory less often\n",
        Some(_) => "",
    }
}

/// Returns a sum over bytes, which is printed of what is too long to be printed.
pub fn sum_of(bytes: &[u8]) -> u32 {
    let mut sum = 0u32;
    for byte in bytes {
        sum = sum.wrapping_mul(31).wrapping_add(u32::from(*byte));
    }
    sum
}
