/// What one thread works on: a door, the seat that its sessions have, and the status of its loop.
#[derive(Drop)]
pub struct Place<D: Drop, B: Drop> {
    pub(crate) door: D,
    pub(crate) seat: B,
    pub(crate) status: u8,
}
