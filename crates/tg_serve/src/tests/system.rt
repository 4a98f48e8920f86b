//! What the system says, read from its texts.

use crate::system::{available_in, open_files_in};

const LIMITS: &str =
    "Limit                     Soft Limit           Hard Limit           Units     \nMax processes             95896                95896                processes \nMax open files            1024                 524288               files     \nMax locked memory         8388608              8388608              bytes     \n";

const MEMORY: &str =
    "MemTotal:       24595700 kB\nMemFree:        22818200 kB\nMemAvailable:   23671040 kB\n";

#[test]
fn the_soft_limit_of_open_files_is_read(rt: HostRuntime) {
    assert_eq!(rt; open_files_in(LIMITS), Some(1_024));
    assert_eq!(rt; open_files_in(MEMORY), None);
    assert_eq!(rt; open_files_in("Max open files            unlimited"), None);
    assert_eq!(rt; open_files_in(""), None);
}

#[test]
fn the_available_memory_is_read_in_kilobytes(rt: HostRuntime) {
    assert_eq!(rt; available_in(MEMORY), Some(24_239_144_960));
    assert_eq!(rt; available_in(LIMITS), None);
    assert_eq!(rt; available_in("MemAvailable: 18446744073709551615 kB"), None);
}
