use dsv_base::Moment;
use http_front::Request;

/// A request as it reaches the machine.
#[derive(Debug, Drop)]
pub struct Call {
    /// The number of the pass by which it comes; a pass belongs to one connection at a time.
    pub pass: u64,
    pub request: Request,
    /// When it is answered: what it changes has this moment.
    pub moment: Moment,
}
