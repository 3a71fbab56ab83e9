use crate::status::Status;
use dav_machine::Hub;
use dsv_outside::Keeper;

/// What a run of `serve` gives back.
#[derive(Drop)]
pub struct Served<D, P: Keeper> {
    pub status: Status,
    /// The doors, in their order.
    pub doors: Vec<D>,
    /// The machine, where the status is 0. Else the keeper is dropped.
    pub hub: Option<Hub<P>>,
}
