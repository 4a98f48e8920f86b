//! What the system says about the server's own limits.
use std::alloc::Global;
use std::fs::File;
use std::io;
use std::rt::Files;

/// How many files the process may have open, sockets among them; none if the system does not say.
pub fn most_open_files<R: Files>(rt: &R, alloc: Global) -> Option<u64> {
    let limits = text_of(rt, alloc, "/proc/self/limits")?;
    open_files_in(limits.as_str())
}

/// How many bytes of memory are available; none if the system does not say.
pub fn available_memory<R: Files>(rt: &R, alloc: Global) -> Option<u64> {
    let memory = text_of(rt, alloc, "/proc/meminfo")?;
    available_in(memory.as_str())
}

/// The text of a file.
fn text_of<R: Files>(rt: &R, alloc: Global, path: &str) -> Option<String> {
    io::read_to_string(alloc, File::open(rt, path).ok()?).ok()
}

/// The soft limit in a text like that of /proc/self/limits.
pub(crate) fn open_files_in(limits: &str) -> Option<u64> {
    number_behind(limits, "Max open files")
}

/// The available bytes in a text like that of /proc/meminfo, which counts in kilobytes.
pub(crate) fn available_in(memory: &str) -> Option<u64> {
    number_behind(memory, "MemAvailable:")?.checked_mul(1_024)
}

/// The first number after a label at the beginning of a line.
fn number_behind(text: &str, label: &str) -> Option<u64> {
    for line in text.lines() {
        if let Some(rest) = line.strip_prefix(label) {
            return rest.split_whitespace().next()?.parse::<u64>().ok();
        }
    }
    None
}
