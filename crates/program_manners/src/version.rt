//! The version that each program prints.

/// The repository's version and the logic by which the proofs are checked, as `rt version` ends.
/// `scripts/version` rejects a toolchain with another one.
pub const VERSION: &str = "0.1.0 (rattle logic dac8208d650f15bf)";
