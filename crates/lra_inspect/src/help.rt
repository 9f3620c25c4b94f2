//! Texts about the program itself.

/// Calls of the program.
pub(crate) const HELP: &str = "\
lra                               audits standard input
lra audit FILE                    audits a journal, or all that a folder has
lra show FILE                     lists a sound journal's actions and members, or those of all that a folder has
lra list FILE                     lists a sound journal's actions, or those of all that a folder has, a line each:
                                  [--state STATUS] [--older-than SECONDS] [--now], and what each waits for [--waits]
lra explain FILE ID               tells what happened to an action of a journal, by its number, its UUID or its URI, \
or of a folder's, by its UUID or its URI [--svg]
lra follow FILE                   audits a journal, or all that a folder has, as they grow [--stop-at-eof]
lra upgrade FILE                  prints a sound journal in version 2
lra salvage FILE                  prints what is sound of a journal, up to its first fault
lra play SCRIPT                   plays commands on a coordinator in memory
lra serve ADDRESS FILE WORKERS    serves the coordinator of a journal, or of a folder of them, at http://ADDRESS/, \
by 1 to 16 threads of a kind;
                                  --help behind it prints its options
lra --help                        prints these calls
lra --version                     prints the version, and what proved it
";
