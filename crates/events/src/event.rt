//! One event, as a lift's unit logs it.
ghost use Rattle.std.specs.Prelude.{◌≤◌};

/// An event of a lift. Its type is kept as its code, since memory may hold any number: those above 9
/// are the code of no type.
#[derive(Clone, Copy, Debug, PartialEq, Eq)]
pub struct Event {
    /// In seconds.
    pub time: u32,
    pub lift: u16,
    /// The code of its type.
    pub kind: u8,
    /// In tenths of a volt.
    pub level: u16,
    pub load: u32,
    // Numbers have no bound in the logic: these are the ones that the fields hold.
    ghost ranges: { (time ≤ 4294967295) × (lift ≤ 65535) × (kind ≤ 255) × (level ≤ 65535) × (load ≤ 4294967295) },
}
