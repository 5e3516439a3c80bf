//! The lines that tell faults.
use std::alloc::Global;
use test_cases::{MemoryWriter, say, write};
use yl_config::{ConfigFault, FaultPlace};
use yl_devices::{BadText, ProgramFault, RunFault, WriteFault, say as say_fault};
use yl_sources::say_config;
use yl_text::Watched;

// A fault of a run, or of a configuration.
#[derive(Clone, Copy)]
enum Fault {
    Use,
    Memory,
    Run(&'static str, RunFault),
    Config(ConfigFault),
}

const PLACE: FaultPlace = FaultPlace {
    line: 3,
    column: 10,
};

const NOT_UTF8: BadText = BadText::NotUtf8 { valid_up_to: 1203 };

const FAULTS: [Fault; 9] = [
    Fault::Use,
    Fault::Memory,
    Fault::Run("a.yaml", RunFault::Read),
    Fault::Run("stdin", RunFault::Text(NOT_UTF8)),
    Fault::Run("b.yaml", RunFault::Text(BadText::TooLarge)),
    Fault::Run("a.yaml", RunFault::Write),
    Fault::Run("a.yaml", RunFault::Memory),
    Fault::Config(ConfigFault::UnknownRule(PLACE)),
    Fault::Config(ConfigFault::TooLarge),
];

// What telling a fault answered, what was written, and how often the writer failed.
#[derive(Drop)]
struct Told {
    answer: Result<(), WriteFault>,
    out: Vec<u8>,
    failures: u64,
}

// Tells a fault.
fn tell_to(fault: Fault, writer: MemoryWriter) -> Told {
    let program = "yamllint";
    let mut out = Watched::new(writer);
    let answer = match fault {
        Fault::Use => say_fault(program, &ProgramFault::Use, &mut out),
        Fault::Memory => say_fault(program, &ProgramFault::Memory, &mut out),
        Fault::Run(name, fault) => say_fault(program, &ProgramFault::Run(name, fault), &mut out),
        Fault::Config(fault) => say_config(program, fault, &mut out),
    };
    Told {
        answer,
        failures: out.failures(),
        out: out.into_inner().bytes,
    }
}

// Whether it stops where the writer takes so many bytes and then fails, each number in turn.
fn stops(alloc: Global, fault: Fault, line: &[u8]) -> bool {
    for room in 0..line.len() {
        let mut writer = MemoryWriter::new(alloc);
        writer.room = room;
        writer.fails = false;
        let told = tell_to(fault, writer);
        let is_begun = told.out.len() == room && line.starts_with(told.out.as_slice());
        if told.answer != Err(WriteFault) || told.failures != 1 || !is_begun {
            return false;
        }
    }
    true
}

/// Prints the line of each fault.
pub fn tell_faults(rt: &HostRuntime) -> Result<(), RunFault> {
    for fault in FAULTS {
        let mut writer = MemoryWriter::new(rt.alloc());
        writer.most = 3;
        let told = tell_to(fault, writer);
        write(rt, told.out.as_slice())?;
        if told.answer != Ok(()) || !stops(rt.alloc(), fault, told.out.as_slice()) {
            say(rt, "is answered otherwise where a write fails")?;
        }
    }
    Ok(())
}
