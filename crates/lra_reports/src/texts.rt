//! The texts that the programs print about themselves.

/// The calls of the programs.
pub const HELP: &str = "\
lra                               audits standard input
lra audit FILE                    audits a journal, or all that a folder has
lra show FILE                     lists a sound journal's actions and members
lra upgrade FILE                  prints a sound journal in version 2
lra salvage FILE                  prints what is sound of a journal, up to its first fault
lra play SCRIPT                   plays commands on a coordinator in memory
lra serve ADDRESS FILE WORKERS    serves a journal's coordinator at http://ADDRESS/, by 1 to 16 threads of a kind
lra --help                        prints these calls
lra --version                     prints the version, and what proved it
";

/// The programs' version, and the identity of the logic that checks their proofs. Kits of several numbers share it.
pub const VERSION: &str = "lra 0.1.0\nrattle logic dac8208d650f15bf\n";
