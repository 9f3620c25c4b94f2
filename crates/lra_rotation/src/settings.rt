//! Settings of a rotation.

/// Settings of a rotation, which stay from a service's start to its end.
#[derive(Clone, Copy, PartialEq, Eq)]
pub struct RotationSettings {
    /// Site of its journals, which their instances begin with.
    pub site: u16,
    /// Number of milliseconds for which a journal is retained after its last entry.
    pub remember: u64,
    /// Flag, set if the next journal takes the place of the newest. A service of one file never rotates.
    pub rolls: bool,
    /// Flag, set if the service drains: no new work is accepted that names no journal, and the service ends once all
    /// has ended.
    pub drains: bool,
}
