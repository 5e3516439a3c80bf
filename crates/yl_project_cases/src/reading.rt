//! Reads configurations, also when allocations are refused.
use failing_alloc::FailingAlloc;
use std::alloc::{AllocError, Allocator, Global};
use yl_config::ConfigFault;
use yl_project::{Named, Project};

/// The base that a configuration extends.
#[derive(Clone, Copy, PartialEq, Eq)]
pub enum Base {
    /// No rule is on.
    Empty,
    /// The configuration `default` of yamllint.
    Default,
    /// The configuration `relaxed` of yamllint.
    Relaxed,
    /// The last configuration that was read.
    Last,
}

/// Returns the base with this name, if there is one.
pub fn base_named(word: &str) -> Option<Base> {
    match word {
        "empty" => Some(Base::Empty),
        "default" => Some(Base::Default),
        "relaxed" => Some(Base::Relaxed),
        "last" => Some(Base::Last),
        _ => None,
    }
}

/// Returns the project of a base. The project of `Last` is empty here, since it does not come with
/// the crate. The only error is out of memory.
pub fn project_of<A: Allocator + Copy>(alloc: A, base: Base) -> Result<Project<A>, AllocError> {
    match base {
        Base::Default => Project::standard(alloc),
        Base::Relaxed => Project::relaxed(alloc),
        Base::Empty | Base::Last => Project::empty(alloc),
    }
}

// Returns the fault of reading a configuration, if there is one.
fn fault_of<A: Allocator + Copy>(
    alloc: A,
    base: Base,
    text: &[u8],
    lines: &str,
) -> Option<ConfigFault> {
    let Ok(base) = project_of(alloc, base) else {
        return Some(ConfigFault::Memory);
    };
    match Project::read(alloc, text, base, lines) {
        Ok(_) => None,
        Err(fault) => Some(fault),
    }
}

/// Reads a configuration with each allocation refused in turn. Returns `true` if the fault is
/// `Memory` each time, and if the result is the usual one when none is refused.
pub fn is_same_when_refused(alloc: Global, base: Base, text: &[u8], lines: &str) -> bool {
    let heap = FailingAlloc::new(alloc);
    let fault = fault_of(alloc, base, text, lines);
    for nth in 1..u64::MAX {
        heap.refuse(nth);
        let again = fault_of(&heap, base, text, lines);
        if heap.is_armed() {
            return again == fault;
        }
        if again != Some(ConfigFault::Memory) {
            return false;
        }
    }
    false
}

/// Reads the names in a configuration with each allocation refused in turn. Returns `true` if the
/// fault is `Memory` each time.
pub fn are_same_when_refused(alloc: Global, text: &[u8]) -> bool {
    let heap = FailingAlloc::new(alloc);
    for nth in 1..u64::MAX {
        heap.refuse(nth);
        let again = Named::read(&heap, text);
        if heap.is_armed() {
            return true;
        }
        if !matches!(again, Err(ConfigFault::Memory)) {
            return false;
        }
    }
    false
}
